// The check of a laid matrix: symmetric, 0 or 1, zero outside the vertices, no vertex above its degree and no cell above the table.
#![tactic(auto)]

ghost use Rattle.std.specs.Prelude.{◌≡◌, true, ◌&&◌, ℕ, ◌+◌, ◌-◌, ◌*◌, ◌≤◌, ◌<◌, eqb, leb, length, get_or, take, drop, replicate};
ghost use Rattle.finite.specs.Range.{all_to};
ghost use Rattle.graph.specs.Graph.{Simple, degree};
ghost use Rattle.graph.specs.Tests.{most_classes, class_degree};
ghost use Rattle.slices.specs.Slices.{all_zero};
ghost use Rattle.table.specs.Inner.Cells.{matrix_of};
ghost use Rattle.layout.specs.Layout.{most_vertices};
ghost use Rattle.layout.specs.Inner.Arrays.{class_in};
ghost use Rattle.adjacency.specs.Adjacency.{adjacency_size, side, edge, row_mirrored, mirrored, zero_outside, adjacency_ok};
ghost use Rattle.adjacency.specs.Inner.Degrees.{degrees_of};

use adjacency::SIDE;
use layout::MAX_VERTICES;
use matrix_cells::cells_within;
use slices::{all_zero, ones};
use table::cells::CELLS;
use table::class::class_degree;

// v and w carry the same byte, 0 or 1.
fn pair_ok(adjacency: &[u8], v: usize, w: usize) -> bool
    requires { (length adjacency.now ≡ adjacency_size) × (v < side) × (w < side) }
    ensures { result ≡ leb (edge adjacency.now v w) 1 && eqb (edge adjacency.now v w) (edge adjacency.now w v) }
{
    let a = adjacency[v * SIDE + w];
    let b = adjacency[w * SIDE + v];
    (a <= 1) & (a == b)
}

fn row_mirrored(adjacency: &[u8], v: usize) -> bool
    requires { (length adjacency.now ≡ adjacency_size) × (v < side) }
    ensures { result ≡ row_mirrored adjacency.now v }
{
    let mut ok = true;
    for w in 0..v {
        ok = ok & pair_ok(adjacency, v, w);
    }
    (adjacency[v * SIDE + v] == 0) & ok
}

fn is_mirrored(adjacency: &[u8], n: usize) -> bool
    requires { (length adjacency.now ≡ adjacency_size) × (n ≤ side) }
    ensures { result ≡ mirrored n adjacency.now }
{
    for v in 0..n {
        if !row_mirrored(adjacency, v) {
            return false;
        }
    }
    true
}

// Row v is zero behind its first n bytes.
fn row_end_zero(adjacency: &[u8], n: usize, v: usize) -> bool
    requires { (length adjacency.now ≡ adjacency_size) × (n ≤ side) × (v < side) }
    ensures { result ≡ all_zero (take (side - n) (drop (v * side + n) adjacency.now)) }
{
    let from = v * SIDE + n;
    let to = v * SIDE + SIDE;
    all_zero(&adjacency[from..to])
}

fn is_zero_outside(adjacency: &[u8], n: usize) -> bool
    requires { (length adjacency.now ≡ adjacency_size) × (n ≤ side) }
    ensures { result ≡ zero_outside n adjacency.now }
{
    let mut ok = true;
    for v in 0..n {
        ok = ok & row_end_zero(adjacency, n, v);
    }
    let from = n * SIDE;
    ok & all_zero(&adjacency[from..])
}

// How many edges v has.
fn degree_of(adjacency: &[u8], n: usize, v: usize) -> usize
    requires { (length adjacency.now ≡ adjacency_size) × (n ≤ side) × (v < n) × Simple n (edge adjacency.now) }
    ensures { result ≡ degree n (edge adjacency.now) v }
{
    let from = v * SIDE;
    let to = from + n;
    ones(&adjacency[from..to])
}

// The degrees of the n vertices, in an array of zeros.
fn count_degrees(adjacency: &[u8], n: usize, degrees: &mut [usize; MAX_VERTICES])
    requires { (length adjacency.now ≡ adjacency_size) × (n ≤ side) × Simple n (edge adjacency.now) × (degrees.old ≡ replicate most_vertices 0) }
    ensures { degrees.new ≡ degrees_of n adjacency.now }
{
    for v in 0..n {
        degrees[v] = degree_of(adjacency, n, v);
    }
}

fn degrees_within(degrees: &[usize; MAX_VERTICES], n: usize, classes: &[u8; MAX_VERTICES]) -> bool
    requires { n ≤ side }
    ensures { result ≡ all_to n (λ v. leb (get_or degrees.now v 0) (class_degree (class_in classes.now v))) }
{
    let mut ok = true;
    for v in 0..n {
        ok = ok & (degrees[v] <= class_degree(usize::from(classes[v])));
    }
    ok
}

// The matrix is as document 01 lays it down for a laid state with these classes and cells. Where it is, the array of zeros holds the degrees afterwards.
pub fn adjacency_ok(
    adjacency: &[u8],
    n: usize,
    classes: &[u8; MAX_VERTICES],
    cells: &[u32; CELLS],
    degrees: &mut [usize; MAX_VERTICES],
) -> bool
    requires { (length adjacency.now ≡ adjacency_size) × (n ≤ most_vertices) × ((v : ℕ) → v < n → class_in classes.now v < most_classes) × ((v w : ℕ) → v ≤ w → w < n → class_in classes.now v ≤ class_in classes.now w) × (degrees.old ≡ replicate most_vertices 0) }
    ensures value { result ≡ adjacency_ok n (class_in classes.now) (matrix_of cells.now) adjacency.now }
    ensures degrees_after { result ≡ true → degrees.new ≡ degrees_of n adjacency.now }
{
    if !is_mirrored(adjacency, n) {
        return false;
    }
    count_degrees(adjacency, n, degrees);
    is_zero_outside(adjacency, n)
        & degrees_within(degrees, n, classes)
        & cells_within(adjacency, n, classes, cells)
}
