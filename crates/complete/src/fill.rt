// Filling cell by cell: each gets the joins that it misses.
ghost use Rattle.std.specs.Prelude.{◌≡◌, ◌+◌, ◌-◌, ◌/◌, ◌<◌, length};
ghost use Rattle.graph.specs.Graph.{times_counted};
ghost use Rattle.graph.specs.Tests.{most_classes};
ghost use Rattle.table.specs.Inner.Cells.{matrix_of};
ghost use Rattle.adjacency.specs.Adjacency.{adjacency_size, edge};
ghost use Rattle.adjacency.specs.Inner.Degrees.{degrees_of};
ghost use Rattle.classes.specs.Inner.Block.{class_from, block_sum};
ghost use Rattle.completion.specs.Inner.Cellwise.{fill_cell, fill_row, fill_all};
ghost use Rattle.progress.specs.Inner.Work.{ran, WroteRecords, Working};
ghost use Rattle.cell_filling.specs.Inner.Work.{cell_in};
ghost use Rattle.complete.specs.Inner.Work.{Countable};

use cell_filling::fill_steps;
use cell_filling::pair::{Cell, Span};
use classes::{STARTS, block_sum};
use layout::MAX_VERTICES;
use progress::Totals;
use table::cells::{CELLS, cell};
use table::class::{LEAST_CLASS, MAX_CLASSES, times_counted};

// Cell (k, l) between the starts of its classes.
fn cell_at(starts: &[usize; STARTS], k: usize, l: usize) -> Cell
    requires { (k < most_classes) × (l < most_classes) }
    ensures { result ≡ cell_in starts.now k l }
{
    Cell {
        k,
        l,
        rows: Span {
            from: starts[k],
            to: starts[k + 1],
        },
        columns: Span {
            from: starts[l],
            to: starts[l + 1],
        },
    }
}

// The joins that a cell misses.
fn missing(adjacency: &[u8], cells: &[u32; CELLS], c: Cell) -> usize
    requires { (length adjacency.now ≡ adjacency_size) × Countable adjacency.now cells.now c }
    ensures { result ≡ (matrix_of cells.now c.k c.l - block_sum (edge adjacency.now) c.rows.from c.rows.to c.columns.from c.columns.to) / times_counted c.k c.l }
{
    let want = cell(cells, c.k, c.l);
    if want == 0 {
        return 0;
    }
    let have = block_sum(
        adjacency,
        c.rows.from,
        c.rows.to,
        c.columns.from,
        c.columns.to,
    );
    (want - have) / times_counted(c.k, c.l)
}

// Cell (k, l) filled.
fn fill_cell(
    adjacency: &mut [u8],
    output: &mut [u8],
    degrees: &mut [usize; MAX_VERTICES],
    cells: &[u32; CELLS],
    starts: &[usize; STARTS],
    n: usize,
    k: usize,
    l: usize,
    totals: Totals,
) -> Totals
    requires { Working n cells.now starts.now degrees.old (length output.old) (ran adjacency.old output.old totals) × (k < most_classes) × (l < most_classes) }
    ensures result_after { ran adjacency.new output.new result ≡ fill_cell n (class_from starts.now) (matrix_of cells.now) k l (ran adjacency.old output.old totals) }
    ensures wrote_records { WroteRecords totals.joins result.joins output.old output.new }
    ensures degrees_after { degrees.new ≡ degrees_of n adjacency.new }
{
    let c = cell_at(starts, k, l);
    let m = missing(adjacency, cells, c);
    fill_steps(adjacency, output, degrees, starts, n, c, m, totals)
}

// The cells of row k, from the diagonal on. A class without vertices has none to fill.
fn fill_row(
    adjacency: &mut [u8],
    output: &mut [u8],
    degrees: &mut [usize; MAX_VERTICES],
    cells: &[u32; CELLS],
    starts: &[usize; STARTS],
    n: usize,
    k: usize,
    totals: Totals,
) -> Totals
    requires { Working n cells.now starts.now degrees.old (length output.old) (ran adjacency.old output.old totals) × (k < most_classes) }
    ensures result_after { ran adjacency.new output.new result ≡ fill_row n (class_from starts.now) (matrix_of cells.now) k (ran adjacency.old output.old totals) }
    ensures wrote_records { WroteRecords totals.joins result.joins output.old output.new }
    ensures degrees_after { degrees.new ≡ degrees_of n adjacency.new }
{
    if starts[k] == starts[k + 1] {
        return totals;
    }
    let mut sum = totals;
    for l in k..MAX_CLASSES {
        sum = fill_cell(adjacency, output, degrees, cells, starts, n, k, l, sum);
    }
    sum
}

// All cells, row by row.
pub fn fill_all(
    adjacency: &mut [u8],
    output: &mut [u8],
    degrees: &mut [usize; MAX_VERTICES],
    cells: &[u32; CELLS],
    starts: &[usize; STARTS],
    n: usize,
    totals: Totals,
) -> Totals
    requires { Working n cells.now starts.now degrees.old (length output.old) (ran adjacency.old output.old totals) }
    ensures result_after { ran adjacency.new output.new result ≡ fill_all n (class_from starts.now) (matrix_of cells.now) (ran adjacency.old output.old totals) }
    ensures wrote_records { WroteRecords totals.joins result.joins output.old output.new }
{
    let mut sum = totals;
    for k in LEAST_CLASS..MAX_CLASSES {
        sum = fill_row(adjacency, output, degrees, cells, starts, n, k, sum);
    }
    sum
}
