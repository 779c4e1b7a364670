// The records of a degree table, written to an output.
#![tactic(auto)]

ghost use Rattle.std.specs.Prelude.{◌≡◌, ◌+◌, ◌*◌, ◌≤◌, ◌<◌, length};
ghost use Rattle.std.proofs.lemmas.List.Edits.{sets};
ghost use Rattle.finite.specs.Range.{cat_to};
ghost use Rattle.graph.specs.Tests.{most_classes};
ghost use Rattle.table.specs.Block.{record_size};
ghost use Rattle.table.specs.Inner.Cells.{matrix_of};
ghost use Rattle.layout.specs.Layout.{most_vertices};
ghost use Rattle.layout.specs.Inner.Arrays.{table_in};
ghost use Rattle.table_records.specs.Records.{count_record, cell_record, cell_records, records_of};
ghost use Rattle.table_records.specs.Inner.Bounds.{cell_most_own, CellsSmall, cell_records_most, records_most};

use slices::put;
use table::cells::{CELLS, upper_cell};
use table::class::MAX_CLASSES;

// The record k, l, count from place at on, if the count is not 0. The place behind it.
fn put_record(k: usize, l: usize, count: usize, out: &mut [u8], at: usize) -> usize
    requires { (k < most_classes) × (l < most_classes) × (count ≤ cell_most_own) × (at ≤ records_most) }
    ensures value { (result ≡ at + length (count_record k l count)) × (result ≤ at + record_size) }
    ensures out_after { out.new ≡ sets out.old at (count_record k l count) }
{
    if count == 0 {
        return at;
    }
    put(out, at, k as u8);
    put(out, at + 1, l as u8);
    put(out, at + 2, (count % 256) as u8);
    put(out, at + 3, (count / 256) as u8);
    at + 4
}

// The records of row k.
fn put_row(cells: &[u32; CELLS], k: usize, out: &mut [u8], at: usize) -> usize
    requires { (k < most_classes) × CellsSmall cells.now × (at + record_size * most_classes ≤ records_most) }
    ensures value { (result ≡ at + length (cat_to most_classes (cell_record (matrix_of cells.now) k))) × (result ≤ at + record_size * most_classes) }
    ensures out_after { out.new ≡ sets out.old at (cat_to most_classes (cell_record (matrix_of cells.now) k)) }
{
    let mut a = at;
    for l in k..MAX_CLASSES {
        a = put_record(k, l, upper_cell(cells, k, l), out, a);
    }
    a
}

// The records of all cells.
fn put_cells(cells: &[u32; CELLS], out: &mut [u8], at: usize) -> usize
    requires { CellsSmall cells.now × (at ≤ record_size) }
    ensures value { (result ≡ at + length (cell_records (matrix_of cells.now))) × (result ≤ at + cell_records_most) }
    ensures out_after { out.new ≡ sets out.old at (cell_records (matrix_of cells.now)) }
{
    let mut a = at;
    for k in 0..MAX_CLASSES {
        a = put_row(cells, k, out, a);
    }
    a
}

// All records, that of the isolated vertices first. How many bytes they are.
pub fn put_records(isolated: usize, cells: &[u32; CELLS], out: &mut [u8]) -> usize
    requires { (isolated ≤ most_vertices) × CellsSmall cells.now }
    ensures value { (result ≡ length (records_of (table_in cells.now isolated))) × (result ≤ records_most) }
    ensures out_after { out.new ≡ sets out.old 0 (records_of (table_in cells.now isolated)) }
{
    let first = put_record(0, 0, isolated, out, 0);
    put_cells(cells, out, first)
}
