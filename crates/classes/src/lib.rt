// The cells of the joint degree matrix as blocks of the adjacency matrix: the vertices of a class stand next to each other.
#![tactic(auto)]

ghost use Rattle.std.specs.Prelude.{◌≡◌, ℕ, ◌+◌, ◌-◌, ◌*◌, ◌≤◌, ◌<◌, length};
ghost use Rattle.finite.specs.Range.{sum_to};
ghost use Rattle.graph.specs.Numbering.{total};
ghost use Rattle.graph.specs.Tests.{most_classes};
ghost use Rattle.layout.specs.Layout.{most_vertices};
ghost use Rattle.layout.specs.Inner.Arrays.{count_in};
ghost use Rattle.adjacency.specs.Adjacency.{adjacency_size, side, edge};
ghost use Rattle.classes.specs.Inner.Block.{starts_of, class_from, block_sum, triangle_sum, BlockOf};

use adjacency::SIDE;
use finite::lowest_passing;
use slices::ones;
use table::class::MAX_CLASSES;

// One entry for each class, and one past the last.
pub const STARTS: usize = MAX_CLASSES + 1;

// The first vertex of each class: entry k is the number of vertices of the classes below k.
pub fn starts(counts: &[usize; MAX_CLASSES]) -> [usize; STARTS]
    requires { total most_classes (count_in counts.now) ≤ most_vertices }
    ensures { result ≡ starts_of counts.now }
{
    let mut t = [0usize; STARTS];
    let mut sum = 0;
    for (k, count) in counts.iter().enumerate() {
        t[k] = sum;
        sum += count;
    }
    t[MAX_CLASSES] = sum;
    t
}

// The class of vertex v.
pub fn class_at(starts: &[usize; STARTS], v: usize) -> usize
    ensures { result ≡ class_from starts.now v }
{
    lowest_passing(0, MAX_CLASSES, |k| v < starts[k + 1])
}

// The ones of row v in columns left, .., right - 1.
pub fn row_sum(adjacency: &[u8], v: usize, left: usize, right: usize) -> usize
    requires { (length adjacency.now ≡ adjacency_size) × (v < side) × (left ≤ right) × (right ≤ side) × ((w : ℕ) → w < right → edge adjacency.now v w ≤ 1) }
    ensures { (result ≡ sum_to (right - left) (λ j. edge adjacency.now v (left + j))) × (result ≤ side) }
{
    let from = v * SIDE + left;
    let to = v * SIDE + right;
    ones(&adjacency[from..to])
}

// How many ones stand in rows top, .., bottom - 1 and columns left, .., right - 1.
fn rows_sum(adjacency: &[u8], top: usize, bottom: usize, left: usize, right: usize) -> usize
    requires { (length adjacency.now ≡ adjacency_size) × BlockOf adjacency.now top bottom left right }
    ensures { result ≡ block_sum (edge adjacency.now) top bottom left right }
{
    let mut sum = 0;
    for v in top..bottom {
        sum += row_sum(adjacency, v, left, right);
    }
    sum
}

// How many edges the vertices from, .., to - 1 have among each other, each counted at its higher end.
fn edges_among(adjacency: &[u8], from: usize, to: usize) -> usize
    requires { (length adjacency.now ≡ adjacency_size) × BlockOf adjacency.now from to from to }
    ensures { (result ≡ triangle_sum (edge adjacency.now) from to) × (result ≤ side * side) }
{
    let mut sum = 0;
    for v in from..to {
        sum += row_sum(adjacency, v, from, v);
    }
    sum
}

// The ones of a block. On the diagonal each edge is two of them.
pub fn block_sum(adjacency: &[u8], top: usize, bottom: usize, left: usize, right: usize) -> usize
    requires { (length adjacency.now ≡ adjacency_size) × BlockOf adjacency.now top bottom left right }
    ensures { result ≡ block_sum (edge adjacency.now) top bottom left right }
{
    if top != left {
        return rows_sum(adjacency, top, bottom, left, right);
    }
    if bottom != right {
        return rows_sum(adjacency, top, bottom, left, right);
    }
    2 * edges_among(adjacency, top, bottom)
}
