// Document 01's tests 9 to 12 on a matrix, D(k), N, and the class of each vertex.
#![tactic(auto)]

ghost use Rattle.std.specs.Prelude.{◌≡◌, ◌*◌, ◌/◌, ◌≤◌, ◌<◌, replicate};
ghost use Rattle.finite.specs.Range.{sum_to, IsFound};
ghost use Rattle.graph.specs.Numbering.{total, class_of};
ghost use Rattle.graph.specs.Target.{cell_most};
ghost use Rattle.graph.specs.Tests.{most_classes, row_sum, odd, uneven, overfull, first_odd, first_uneven, first_overfull, first_overfull_in, vertices, class_degree};
ghost use Rattle.table.specs.Inner.Cells.{matrix_of, AtMost, cell_sum_most};
ghost use Rattle.layout.specs.Inner.Arrays.{count_in, row_fits, Reaches, table_in, Counts, classes_of};
ghost use Rattle.layout.specs.Layout.{layout_verdict, most_vertices};

use answer::{Cause, Refusal, refuse, stopped};
use finite::{first_passing, lowest_passing};
use table::cells::{CELLS, cell, upper_cell};
use table::class::{LEAST_CLASS, MAX_CLASSES, class_degree};

pub const MAX_VERTICES: usize = 200;

fn is_odd(cells: &[u32; CELLS], k: usize) -> bool
    requires { k < most_classes }
    ensures { result ≡ odd (matrix_of cells.now) k }
{
    cell(cells, k, k) % 2 != 0
}

fn first_odd(cells: &[u32; CELLS]) -> Option<usize>
    ensures { IsFound most_classes (first_odd (matrix_of cells.now)) result }
{
    first_passing(LEAST_CLASS, MAX_CLASSES, |k| is_odd(cells, k))
}

// S(k)
fn row_sum(cells: &[u32; CELLS], k: usize) -> usize
    requires { (k < most_classes) × AtMost cell_sum_most cells.now }
    ensures { (result ≡ row_sum (matrix_of cells.now) k) × (result ≤ most_classes * cell_sum_most) }
{
    let mut sum = 0;
    for l in 0..k {
        sum += upper_cell(cells, l, k);
    }
    for l in k..MAX_CLASSES {
        sum += upper_cell(cells, k, l);
    }
    sum
}

fn is_uneven(cells: &[u32; CELLS], k: usize) -> bool
    requires { (0 < k) × (k < most_classes) × AtMost cell_sum_most cells.now }
    ensures { result ≡ uneven (matrix_of cells.now) k }
{
    row_sum(cells, k) % class_degree(k) != 0
}

fn first_uneven(cells: &[u32; CELLS]) -> Option<usize>
    requires { AtMost cell_sum_most cells.now }
    ensures { IsFound most_classes (first_uneven (matrix_of cells.now)) result }
{
    first_passing(LEAST_CLASS, MAX_CLASSES, |k| is_uneven(cells, k))
}

// How many vertices each class has, in an array of zeros: D(k), and of class 0 the isolated ones.
pub fn count_classes(cells: &[u32; CELLS], isolated: usize, counts: &mut [usize; MAX_CLASSES])
    requires { AtMost cell_sum_most cells.now × (isolated ≤ cell_sum_most) × (counts.old ≡ replicate most_classes 0) }
    ensures { Counts cells.now counts.new × (count_in counts.new 0 ≡ isolated) }
{
    counts[0] = isolated;
    for k in LEAST_CLASS..MAX_CLASSES {
        counts[k] = row_sum(cells, k) / class_degree(k);
    }
}

// The most that cell (k, l) can hold: D(k) × D(l), on the diagonal D(k) × (D(k) - 1).
fn cell_most(counts: &[usize; MAX_CLASSES], k: usize, l: usize) -> usize
    requires { (k < most_classes) × (l < most_classes) × AtMost (most_classes * cell_sum_most) counts.now }
    ensures { result ≡ cell_most (count_in counts.now) k l }
{
    let d = counts[k];
    if k == l {
        return d * d - d;
    }
    d * counts[l]
}

// Cell (k, l) is above its most.
fn is_overfull(cells: &[u32; CELLS], counts: &[usize; MAX_CLASSES], k: usize, l: usize) -> bool
    requires { (0 < k) × (k < most_classes) × (0 < l) × (l < most_classes) × AtMost cell_sum_most cells.now × Counts cells.now counts.now }
    ensures { result ≡ overfull (matrix_of cells.now) k l }
{
    cell_most(counts, k, l) < cell(cells, k, l)
}

fn first_overfull_in(cells: &[u32; CELLS], counts: &[usize; MAX_CLASSES], k: usize) -> usize
    requires { (0 < k) × (k < most_classes) × AtMost cell_sum_most cells.now × Counts cells.now counts.now }
    ensures { result ≡ first_overfull_in (matrix_of cells.now) k }
{
    lowest_passing(
        LEAST_CLASS,
        MAX_CLASSES,
        |l| is_overfull(cells, counts, k, l),
    )
}

// No cell of row k from the diagonal on is above its most. A flag and no early exit: most tables pass.
fn row_fits(cells: &[u32; CELLS], counts: &[usize; MAX_CLASSES], k: usize) -> bool
    requires { (0 < k) × (k < most_classes) × AtMost cell_sum_most cells.now × Counts cells.now counts.now }
    ensures { result ≡ row_fits (matrix_of cells.now) k }
{
    let d = counts[k];
    let mut ok = upper_cell(cells, k, k) <= d * d - d;
    for l in k + 1..MAX_CLASSES {
        ok = ok & (upper_cell(cells, k, l) <= d * counts[l]);
    }
    ok
}

// The cells before the diagonal stand in rows that have passed.
fn first_overfull(cells: &[u32; CELLS], counts: &[usize; MAX_CLASSES]) -> Option<usize>
    requires { AtMost cell_sum_most cells.now × Counts cells.now counts.now }
    ensures { IsFound most_classes (first_overfull (matrix_of cells.now)) result }
{
    first_passing(LEAST_CLASS, MAX_CLASSES, |k| !row_fits(cells, counts, k))
}

// N
pub fn vertex_count(cells: &[u32; CELLS], counts: &[usize; MAX_CLASSES]) -> usize
    requires { AtMost cell_sum_most cells.now × Counts cells.now counts.now }
    ensures { result ≡ vertices (table_in cells.now (count_in counts.now 0)) }
{
    let mut n = 0;
    for count in counts {
        n += count;
    }
    n
}

// A class, and the first vertex past it.
#[derive(Clone, Copy)]
struct Run {
    class: usize,
    end: usize,
}

// The class of vertex v, from that of an earlier vertex. A `while`: class and end go on together, as far as the ends ask.
fn run_at(counts: &[usize; MAX_CLASSES], v: usize, run: Run) -> Run
    requires { let D = count_in counts.now in Reaches D run.class run.end v × (v < total most_classes D) × (total most_classes D ≤ most_vertices) }
    ensures { let D = count_in counts.now in Reaches D result.class result.end v × (result.class ≡ class_of most_classes D v) }
{
    let mut class = run.class;
    let mut end = run.end;
    while end <= v {
        class += 1;
        end += counts[class];
    }
    Run { class, end }
}

// The class of each vertex, with zeros behind the last.
pub fn classes(cells: &[u32; CELLS], counts: &[usize; MAX_CLASSES]) -> [u8; MAX_VERTICES]
    requires { AtMost cell_sum_most cells.now × Counts cells.now counts.now × (vertices (table_in cells.now (count_in counts.now 0)) ≤ most_vertices) }
    ensures { result ≡ classes_of (table_in cells.now (count_in counts.now 0)) }
{
    let n = vertex_count(cells, counts);
    let mut t = [0u8; MAX_VERTICES];
    let mut run = Run {
        class: 0,
        end: counts[0],
    };
    for v in 0..n {
        run = run_at(counts, v, run);
        t[v] = run.class as u8;
    }
    t
}

// Half the sum of all cells, where rows come out: row k is the class's degree for each of its vertices.
pub fn edges_wanted(counts: &[usize; MAX_CLASSES]) -> usize
    requires { total most_classes (count_in counts.now) ≤ most_vertices }
    ensures { result ≡ sum_to most_classes (λ k. count_in counts.now k * class_degree k) / 2 }
{
    let mut sum = 0;
    for (k, count) in counts.iter().enumerate() {
        sum += count * class_degree(k);
    }
    sum / 2
}

// The tests 9 to 12, each over all cells before the next begins.
pub fn layout_check(cells: &[u32; CELLS], counts: &[usize; MAX_CLASSES]) -> Result<(), Refusal>
    requires { AtMost cell_sum_most cells.now × Counts cells.now counts.now }
    ensures { result ≡ layout_verdict (table_in cells.now (count_in counts.now 0)) }
{
    if let Some(k) = first_odd(cells) {
        return Err(refuse(Cause::OddDiagonal, k, k));
    }
    if let Some(k) = first_uneven(cells) {
        return Err(refuse(Cause::RowNotDivisible, k, 0));
    }
    if let Some(k) = first_overfull(cells, counts) {
        return Err(refuse(Cause::CellTooLarge, k, first_overfull_in(cells, counts, k)));
    }
    if MAX_VERTICES < vertex_count(cells, counts) {
        return stopped(Cause::TooManyVertices);
    }
    Ok(())
}
