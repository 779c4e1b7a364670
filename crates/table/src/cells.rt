// The joint degree matrix as an array: one number for each pair of classes, in either order. While blocks are added, the isolated vertices stand in
// the place of (0, 0).
ghost use Rattle.std.specs.Prelude.{◌≡◌, true, ℕ, ◌+◌, ◌*◌, ◌≤◌, ◌<◌, length, get_or, set};
ghost use Rattle.graph.specs.Tests.{most_classes};
ghost use Rattle.table.specs.Block.{record_size, block_most, good_record, records, first_bad};
ghost use Rattle.table.specs.Inner.Cells.{cells_size, matrix_of, place, isolated_place, add_record, add_block, AtMost, cell_sum_most, block_sum_most};

use crate::class::MAX_CLASSES;

pub const CELLS: usize = MAX_CLASSES * MAX_CLASSES;

pub fn place_of(k: usize, l: usize) -> usize
    requires { (k < most_classes) × (l < most_classes) }
    ensures { (result ≡ place k l) × (result < cells_size) }
{
    k.min(l) * MAX_CLASSES + k.max(l)
}

// Cell (k, l) where k is not above l: row k of these is one part of the array.
pub fn upper_cell(cells: &[u32; CELLS], k: usize, l: usize) -> usize
    requires { (k ≤ l) × (l < most_classes) }
    ensures { (result ≡ matrix_of cells.now k l) × (result < 4294967296) }
{
    cells[k * MAX_CLASSES + l] as usize
}

// Cell (k, l), which is also cell (l, k).
pub fn cell(cells: &[u32; CELLS], k: usize, l: usize) -> usize
    requires { (k < most_classes) × (l < most_classes) }
    ensures { (result ≡ matrix_of cells.now k l) × (result < 4294967296) }
{
    upper_cell(cells, k.min(l), k.max(l))
}

// A record of isolated vertices is added at (0, 0), which is no cell, until take_isolated.
fn add_record(cells: &mut [u32; CELLS], block: &[u8], i: usize)
    requires { (record_size * i + record_size ≤ length block.now) × (good_record block.now i ≡ true) × AtMost (cell_sum_most) cells.old }
    ensures { cells.new ≡ add_record block.now i cells.old }
{
    let at = crate::record::RECORD_BYTES * i;
    let k = usize::from(block[at]);
    let l = usize::from(block[at + 1]);
    let p = place_of(k, l);
    let sum = cells[p] as usize + crate::record::record_count(block, i);
    cells[p] = sum as u32;
}

// Adds every record of a block whose records are all good.
pub fn add_block(cells: &mut [u32; CELLS], block: &[u8])
    requires { (length block.now ≤ block_most) × (first_bad block.now ≡ records block.now) × ((m : ℕ) × (m + block_sum_most ≤ cell_sum_most) × AtMost m cells.old) }
    ensures { cells.new ≡ add_block block.now cells.old }
{
    let n = block.len() / crate::record::RECORD_BYTES;
    for i in 0..n {
        add_record(cells, block, i);
    }
}

// Takes the isolated vertices out of the array, so that it holds cells alone.
pub fn take_isolated(cells: &mut [u32; CELLS]) -> usize
    ensures value { result ≡ get_or cells.old isolated_place 0 }
    ensures cells_after { cells.new ≡ set cells.old isolated_place 0 }
{
    let isolated = cells[0] as usize;
    cells[0] = 0;
    isolated
}
