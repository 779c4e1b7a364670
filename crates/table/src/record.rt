// Records of a block.
ghost use Rattle.std.specs.Prelude.{◌≡◌, ◌+◌, ◌*◌, ◌≤◌, ◌<◌, ◌&&◌, ◌||◌, eqb, leb, length};
ghost use Rattle.finite.specs.Range.{IsFound};
ghost use Rattle.table.specs.Block.{record_size, is_degree, block_length, record_count, good_record, first_bad, records};
ghost use Rattle.table.specs.Inner.Cells.{record_most};

use crate::degree::Degree;
use finite::first_passing;

pub const RECORD_BYTES: usize = 4;

pub const MAX_BLOCK_RECORDS: usize = 16;

pub const MAX_BLOCK_BYTES: usize = RECORD_BYTES * MAX_BLOCK_RECORDS;

// Most blocks of a table.
pub const MAX_BLOCKS: usize = 64;

// Whether a block may have n bytes. It may have none.
pub fn block_length(n: usize) -> bool
    ensures { result ≡ block_length n }
{
    (n <= MAX_BLOCK_BYTES) & (n % RECORD_BYTES == 0)
}

pub fn record_count(block: &[u8], i: usize) -> usize
    requires { record_size * i + record_size ≤ length block.now }
    ensures { (result ≡ record_count block.now i) × (result ≤ record_most) }
{
    let at = RECORD_BYTES * i;
    usize::from(u16::from_le_bytes([block[at + 2], block[at + 3]]))
}

// A cell: two degrees, k not above l; or isolated vertices: 0 and 0.
fn good_pair(k: u8, l: u8) -> bool
    ensures { result ≡ (is_degree k && is_degree l && leb k l) || (eqb k 0 && eqb l 0) }
{
    match (Degree::from_byte(k), Degree::from_byte(l)) {
        (Some(a), Some(b)) => a <= b,
        _ => (k == 0) & (l == 0),
    }
}

fn good_record(block: &[u8], i: usize) -> bool
    requires { record_size * i + record_size ≤ length block.now }
    ensures { result ≡ good_record block.now i }
{
    let at = RECORD_BYTES * i;
    good_pair(block[at], block[at + 1])
}

// The first record that is not good.
pub fn first_bad(block: &[u8]) -> Option<usize>
    ensures { IsFound (records block.now) (first_bad block.now) result }
{
    first_passing(0, block.len() / RECORD_BYTES, |i| !good_record(block, i))
}
