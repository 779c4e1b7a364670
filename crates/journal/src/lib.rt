// The journal in lent bytes (document 01: the book): its check, the sum of its blocks, storing one more.
#![tactic(auto)]

ghost use Rattle.std.specs.Prelude.{◌≡◌, true, ◌&&◌, eqb, leb, ◌+◌, ◌*◌, ◌≤◌, ◌<◌, length, replicate};
ghost use Rattle.finite.specs.Range.{all_to};
ghost use Rattle.slices.specs.Slices.{all_zero, further};
ghost use Rattle.table.specs.Block.{most_blocks, block_most, block_length, records, first_bad};
ghost use Rattle.table.specs.Inner.Cells.{cells_size, matrix_of, AtMost, cell_sum_most};
ghost use Rattle.journal.specs.Journal.{journal_size, phase, phase_laid, phase_byte, blocks, slot_at, slot_length, block_from, block_at, slot_rest, slot_ok, journal_ok, jdm_of, isolated_of, same_block, stored, laid};

use slices::{all_zero, same_bytes};
use table::cells::CELLS;
use table::record::{MAX_BLOCK_BYTES, MAX_BLOCKS, block_length, first_bad};

// The two phases: blocks are taken, and the vertices are laid out.
#[derive(Clone, Copy, PartialEq, Eq)]
pub enum Phase {
    Taking,
    Laid,
}

impl Phase {
    // The byte of the journal that says so.
    pub fn byte(self) -> u8
        ensures { result ≡ phase_byte self }
    {
        match self {
            Phase::Taking => 0,
            Phase::Laid => 1,
        }
    }
}

// A length byte, and the block.
pub const SLOT_BYTES: usize = 1 + MAX_BLOCK_BYTES;

pub const JOURNAL_BYTES: usize = 2 + SLOT_BYTES * MAX_BLOCKS;

// The phase as a number; of a journal that is not valid, any byte.
pub fn phase_of(journal: &[u8]) -> usize
    requires { length journal.now ≡ journal_size }
    ensures { (result ≡ phase journal.now) × (result < 256) }
{
    usize::from(journal[0])
}

// The journal is in this phase.
pub fn is_in(journal: &[u8], expected: Phase) -> bool
    requires { length journal.now ≡ journal_size }
    ensures { result ≡ eqb (phase journal.now) (phase_byte expected) }
{
    journal[0] == expected.byte()
}

pub fn block_count(journal: &[u8]) -> usize
    requires { length journal.now ≡ journal_size }
    ensures { (result ≡ blocks journal.now) × (result < 256) }
{
    usize::from(journal[1])
}

// Where slot i begins.
fn slot_at(i: usize) -> usize
    requires { i < most_blocks }
    ensures { result ≡ slot_at i }
{
    2 + SLOT_BYTES * i
}

// Where its block begins.
pub fn block_from(i: usize) -> usize
    requires { i < most_blocks }
    ensures { result ≡ block_from i }
{
    slot_at(i) + 1
}

// The length byte of slot i.
pub fn slot_length(journal: &[u8], i: usize) -> usize
    requires { (length journal.now ≡ journal_size) × (i < most_blocks) }
    ensures { (result ≡ slot_length journal.now i) × (result < 256) }
{
    usize::from(journal[slot_at(i)])
}

// The block of slot i, a part of the journal itself.
pub fn block_part(journal: &[u8], i: usize) -> &[u8]
    requires { (length journal.now ≡ journal_size) × (i < most_blocks) × (slot_length journal.now i ≤ block_most) }
    ensures { (result.now ≡ block_at journal.now i) × (length result.now ≤ block_most) × (result.ref_ptr ≡ further journal.entry.ref_ptr (block_from i)) }
{
    let n = slot_length(journal, i);
    let from = block_from(i);
    let to = from + n;
    &journal[from..to]
}

// The bytes of slot i behind its block are 0.
fn rest_is_zero(journal: &[u8], i: usize) -> bool
    requires { (length journal.now ≡ journal_size) × (i < most_blocks) × (slot_length journal.now i ≤ block_most) }
    ensures { result ≡ all_zero (slot_rest journal.now i) }
{
    let n = slot_length(journal, i);
    let start = block_from(i);
    let from = start + n;
    let to = start + MAX_BLOCK_BYTES;
    all_zero(&journal[from..to])
}

// Slot i holds a block that 4 and 5 let pass.
fn block_ok(journal: &[u8], i: usize) -> bool
    requires { (length journal.now ≡ journal_size) × (i < most_blocks) × (slot_length journal.now i ≤ block_most) }
    ensures { result ≡ block_length (slot_length journal.now i) && eqb (first_bad (block_at journal.now i)) (records (block_at journal.now i)) }
{
    let part = block_part(journal, i);
    block_length(slot_length(journal, i)) & first_bad(part).is_none()
}

fn slot_ok(journal: &[u8], i: usize) -> bool
    requires { (length journal.now ≡ journal_size) × (i < most_blocks) }
    ensures { result ≡ slot_ok journal.now i }
{
    let n = slot_length(journal, i);
    if MAX_BLOCK_BYTES < n {
        return false;
    }
    if i < block_count(journal) {
        return block_ok(journal, i) & rest_is_zero(journal, i);
    }
    (n == 0) & rest_is_zero(journal, i)
}

// Every slot is as it should be.
fn slots_ok(journal: &[u8]) -> bool
    requires { length journal.now ≡ journal_size }
    ensures { result ≡ all_to most_blocks (slot_ok journal.now) }
{
    for i in 0..MAX_BLOCKS {
        if !slot_ok(journal, i) {
            return false;
        }
    }
    true
}

// A byte that says a phase.
fn is_phase(b: u8) -> bool
    ensures { result ≡ leb b phase_laid }
{
    b <= Phase::Laid.byte()
}

// The journal is as document 01 lays it down.
pub fn journal_ok(journal: &[u8]) -> bool
    requires { length journal.now ≡ journal_size }
    ensures { result ≡ journal_ok journal.now }
{
    is_phase(journal[0]) & (block_count(journal) <= MAX_BLOCKS) & slots_ok(journal)
}

// The sum of all blocks, in an array of zeros: the joint degree matrix, and beside it the number of isolated vertices.
pub fn sum_blocks(journal: &[u8], cells: &mut [u32; CELLS]) -> usize
    requires { (length journal.now ≡ journal_size) × (journal_ok journal.now ≡ true) × (cells.old ≡ replicate cells_size 0) }
    ensures value { (result ≡ isolated_of journal.now) × (result ≤ cell_sum_most) }
    ensures cells_after { (matrix_of cells.new ≡ jdm_of journal.now) × AtMost cell_sum_most cells.new }
{
    for i in 0..block_count(journal) {
        table::cells::add_block(cells, block_part(journal, i));
    }
    table::cells::take_isolated(cells)
}

// Block i of the journal is this block.
pub fn is_block(journal: &[u8], i: usize, block: &[u8]) -> bool
    requires { (length journal.now ≡ journal_size) × (i < most_blocks) × (slot_length journal.now i ≤ block_most) }
    ensures { result ≡ same_block journal.now i block.now }
{
    same_bytes(block_part(journal, i), block)
}

// Writes the block into the next slot and counts it.
pub fn store_block(journal: &mut [u8], block: &[u8])
    requires { (length journal.old ≡ journal_size) × (blocks journal.old < most_blocks) × (length block.now ≤ block_most) }
    ensures { journal.new ≡ stored journal.old block.now }
{
    let i = block_count(journal);
    journal[slot_at(i)] = block.len() as u8;
    slices::copy_in(journal, block_from(i), block);
    journal[1] = (i + 1) as u8;
}

// The phase is laid.
pub fn set_laid(journal: &mut [u8])
    requires { length journal.old ≡ journal_size }
    ensures { journal.new ≡ laid journal.old }
{
    journal[0] = Phase::Laid.byte();
}
