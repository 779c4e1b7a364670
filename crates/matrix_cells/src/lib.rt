// Whether the edges of a matrix stay within the table, cell by cell.
#![tactic(auto)]

ghost use Rattle.std.specs.Prelude.{◌≡◌, true, ◌&&◌, ◌||◌, ℕ, ◌+◌, ◌-◌, ◌*◌, ◌≤◌, ◌<◌, eqb, leb, ltb, length, get_or};
ghost use Rattle.finite.specs.Range.{δ, sum_to, all_to};
ghost use Rattle.graph.specs.Tests.{most_classes};
ghost use Rattle.table.specs.Inner.Cells.{matrix_of};
ghost use Rattle.layout.specs.Inner.Arrays.{class_in};
ghost use Rattle.adjacency.specs.Adjacency.{adjacency_size, side, edge, mirrored, cells_within};
ghost use Rattle.matrix_cells.specs.Inner.Sums.{sums_size, Added, class_edges};

use adjacency::SIDE;
use finite::lowest_passing;
use layout::MAX_VERTICES;
use table::cells::{CELLS, upper_cell};
use table::class::MAX_CLASSES;

// One sum for each class and each vertex.
const SUMS: usize = MAX_CLASSES * SIDE;

// Adds the bytes of a row to as many sums. Where they fit in bytes this is a vector loop.
fn add_row(sums: &mut [u8], row: &[u8])
    requires { (length sums.old ≡ length row.now) × ((i : ℕ) → i < length row.now → get_or sums.old i 0 + get_or row.now i 0 < 256) }
    ensures len { length sums.new ≡ length sums.old }
    ensures sums { (i : ℕ) → i < length row.now → get_or sums.new i 0 ≡ get_or sums.old i 0 + get_or row.now i 0 }
{
    for (i, sum) in sums.iter_mut().enumerate() {
        *sum += row[i];
    }
}

// For each class k and vertex w, how many vertices of class k have an edge to w.
fn sum_classes(adjacency: &[u8], n: usize, classes: &[u8; MAX_VERTICES], sums: &mut [u8; SUMS])
    requires { (length adjacency.now ≡ adjacency_size) × (n ≤ side) × (mirrored n adjacency.now ≡ true) × ((v : ℕ) → v < n → class_in classes.now v < most_classes) × (length sums.old ≡ sums_size) × ((p : ℕ) → get_or sums.old p 0 ≡ 0) }
    ensures { (k w : ℕ) → w < n → get_or sums.new (k * side + w) 0 ≡ class_edges n (class_in classes.now) (edge adjacency.now) k w }
{
    for v in 0..n {
        let at = usize::from(classes[v]) * SIDE;
        let from = v * SIDE;
        add_row(&mut sums[at..at + n], &adjacency[from..from + n]);
    }
}

// The first vertex from start on whose class is not below k, or n: no vertex before it counts for class k or above.
fn skip_below(classes: &[u8; MAX_VERTICES], n: usize, k: usize, start: usize) -> usize
    requires { (start ≤ n) × (n ≤ side) × ((w : ℕ) → w < start → class_in classes.now w < k) }
    ensures { (result ≤ n) × ((w : ℕ) → w < result → class_in classes.now w < k) × (result < n → k ≤ class_in classes.now result) }
{
    lowest_passing(start, n, |w| k <= usize::from(classes[w]))
}

// Vertex start has class k; n is no vertex. As classes rise, where the one that skip_below found has not, none has.
fn has_class(classes: &[u8; MAX_VERTICES], n: usize, k: usize, start: usize) -> bool
    requires { (start ≤ n) × (n ≤ side) }
    ensures { result ≡ ltb start n && eqb (class_in classes.now start) k }
{
    if start == n {
        return false;
    }
    usize::from(classes[start]) == k
}

// For each class l from k on, the sum over its vertices of one row of the sums. None of them is before start.
fn count_class(
    sums: &[u8; SUMS],
    n: usize,
    classes: &[u8; MAX_VERTICES],
    k: usize,
    start: usize,
    have: &mut [u32; MAX_CLASSES],
)
    requires { (n ≤ side) × (k < most_classes) × ((v : ℕ) → v < n → class_in classes.now v < most_classes) × (start ≤ n) × ((w : ℕ) → w < start → class_in classes.now w < k) × (length have.old ≡ most_classes) × ((p : ℕ) → get_or have.old p 0 ≡ 0) }
    ensures { (l : ℕ) → k ≤ l → get_or have.new l 0 ≡ sum_to n (λ w. δ (class_in classes.now w) l * get_or sums.now (k * side + w) 0) }
{
    for w in start..n {
        let l = usize::from(classes[w]);
        let sum = have[l] as usize + usize::from(sums[k * SIDE + w]);
        have[l] = sum as u32;
    }
}

// No cell (k, l) with l from k on is above the matrix.
fn class_within(
    sums: &[u8; SUMS],
    n: usize,
    classes: &[u8; MAX_VERTICES],
    cells: &[u32; CELLS],
    k: usize,
    start: usize,
) -> bool
    requires { (n ≤ side) × (k < most_classes) × ((v : ℕ) → v < n → class_in classes.now v < most_classes) × (start ≤ n) × ((w : ℕ) → w < start → class_in classes.now w < k) }
    ensures { result ≡ all_to most_classes (λ l. ltb l k || leb (sum_to n (λ w. δ (class_in classes.now w) l * get_or sums.now (k * side + w) 0)) (matrix_of cells.now k l)) }
{
    let mut have = [0u32; MAX_CLASSES];
    count_class(sums, n, classes, k, start, &mut have);
    let mut ok = true;
    for l in k..MAX_CLASSES {
        ok = ok & (have[l] as usize <= upper_cell(cells, k, l));
    }
    ok
}

// The matrix and the table are symmetric, so the cells (k, l) with l from k on are enough.
// A class without vertices has no edges to count.
pub fn cells_within(
    adjacency: &[u8],
    n: usize,
    classes: &[u8; MAX_VERTICES],
    cells: &[u32; CELLS],
) -> bool
    requires { (length adjacency.now ≡ adjacency_size) × (n ≤ side) × (mirrored n adjacency.now ≡ true) × ((v : ℕ) → v < n → class_in classes.now v < most_classes) × ((v w : ℕ) → v ≤ w → w < n → class_in classes.now v ≤ class_in classes.now w) }
    ensures { result ≡ cells_within n (class_in classes.now) (matrix_of cells.now) adjacency.now }
{
    let mut sums = [0u8; SUMS];
    sum_classes(adjacency, n, classes, &mut sums);
    let mut ok = true;
    let mut start = 0;
    for k in 0..MAX_CLASSES {
        start = skip_below(classes, n, k, start);
        if has_class(classes, n, k, start) {
            ok = ok & class_within(&sums, n, classes, cells, k, start);
        }
    }
    ok
}
