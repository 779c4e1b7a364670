// The log of swaps (document 02, P8): its count and its records, one written, and the check of them beside a matrix.
#![tactic(auto)]

ghost use Rattle.std.specs.Prelude.{◌≡◌, true, ◌≤◌, ◌<◌, length, get_or};
ghost use Rattle.graph.specs.Tests.{vertices, vertex_class};
ghost use Rattle.table.specs.Inner.Cells.{AtMost, cell_sum_most};
ghost use Rattle.layout.specs.Layout.{most_vertices};
ghost use Rattle.layout.specs.Inner.Arrays.{count_in, table_in, class_in, Counts};
ghost use Rattle.swapping.specs.Swap.{undoing};
ghost use Rattle.swapping.specs.Theorems.{Matrix};
ghost use Rattle.swap_log.specs.Log.{most_swaps, log_size, swap_count, swap_at, undo_all, zero_after, log_ok, empty_log, written};

use layout::{MAX_VERTICES, classes};
use slices::{clear_bytes, put};
use swapping::{Swap, can_swap, swap_bytes};
use table::cells::CELLS;
use table::class::MAX_CLASSES;

pub const MAX_SWAPS: usize = 1024;

const SWAP_BYTES: usize = 4;

const COUNT_BYTES: usize = 2;

pub const LOG_BYTES: usize = COUNT_BYTES + SWAP_BYTES * MAX_SWAPS;

// How many records there are.
pub fn swap_count(log: &[u8]) -> usize
    requires { length log.now ≡ log_size }
    ensures { (result ≡ swap_count log.now) × (result < 65536) × (get_or log.now 0 0 < 256) }
{
    usize::from(u16::from_le_bytes([log[0], log[1]]))
}

// Record i.
pub fn swap_at(log: &[u8], i: usize) -> Swap
    requires { (length log.now ≡ log_size) × (i < most_swaps) }
    ensures { result ≡ swap_at log.now i }
{
    let at = COUNT_BYTES + SWAP_BYTES * i;
    Swap {
        a: usize::from(log[at]),
        b: usize::from(log[at + 1]),
        c: usize::from(log[at + 2]),
        d: usize::from(log[at + 3]),
    }
}

// A count of m, and x as record i. Every number of x is a byte.
pub fn write_swap(log: &mut [u8], m: usize, i: usize, x: Swap)
    requires { (m < 65536) × (i < most_swaps) × (x.a < 256) × (x.b < 256) × (x.c < 256) × (x.d < 256) }
    ensures { log.new ≡ written log.old m i x }
{
    let at = COUNT_BYTES + SWAP_BYTES * i;
    put(log, 0, (m % 256) as u8);
    put(log, 1, (m / 256) as u8);
    put(log, at, x.a as u8);
    put(log, at + 1, x.b as u8);
    put(log, at + 2, x.c as u8);
    put(log, at + 3, x.d as u8);
}

// Empties a log. One of no records is empty as it is, and is not written.
pub fn empty_log(log: &mut [u8])
    requires { (length log.old ≡ log_size) × (zero_after log.old ≡ true) }
    ensures { log.new ≡ empty_log }
{
    if swap_count(log) == 0 {
        return;
    }
    clear_bytes(log);
}

// The swap that takes x back.
pub fn undoing(x: Swap) -> Swap
    ensures { result ≡ undoing x }
{
    Swap {
        a: x.a,
        b: x.d,
        c: x.c,
        d: x.b,
    }
}

// The first m records can be taken back, the last first. Each is taken back in the matrix that is lent, and made again behind the others.
fn undoable(
    adjacency: &mut [u8],
    log: &[u8],
    classes: &[u8; MAX_VERTICES],
    n: usize,
    m: usize,
) -> bool
    requires { Matrix n adjacency.old × (length log.now ≡ log_size) × (m ≤ most_swaps) }
    ensures value { result ≡ (undo_all n (class_in classes.now) log.now m adjacency.old).legal }
    ensures adjacency_unchanged { adjacency.new ≡ adjacency.old }
{
    if m == 0 {
        return true;
    }
    let x = swap_at(log, m - 1);
    let back = undoing(x);
    if !can_swap(adjacency, classes, n, back) {
        return false;
    }
    swap_bytes(adjacency, back);
    let legal = undoable(adjacency, log, classes, n, m - 1);
    swap_bytes(adjacency, x);
    legal
}

// The check of the log beside the matrix of a table's vertices.
pub fn log_ok(
    adjacency: &mut [u8],
    log: &[u8],
    cells: &[u32; CELLS],
    counts: &[usize; MAX_CLASSES],
    n: usize,
) -> bool
    requires { Matrix n adjacency.old × (length log.now ≡ log_size) × AtMost cell_sum_most cells.now × Counts cells.now counts.now × (n ≡ vertices (table_in cells.now (count_in counts.now 0))) × (n ≤ most_vertices) }
    ensures value { result ≡ log_ok n (vertex_class (table_in cells.now (count_in counts.now 0))) adjacency.old log.now }
    ensures adjacency_unchanged { adjacency.new ≡ adjacency.old }
{
    let m = swap_count(log);
    if MAX_SWAPS < m {
        return false;
    }
    if !slices::all_zero(&log[COUNT_BYTES + SWAP_BYTES * m..]) {
        return false;
    }
    if m == 0 {
        return true;
    }
    let c = classes(cells, counts);
    undoable(adjacency, log, &c, n, m)
}
