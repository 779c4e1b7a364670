// The adjacency matrix in lent bytes (document 01: the grid): a byte of it, the setting of an edge, the count of all.
#![tactic(auto)]

ghost use Rattle.std.specs.Prelude.{◌≡◌, ℕ, ◌+◌, ◌-◌, ◌*◌, ◌/◌, ◌≤◌, ◌<◌, length, get_or};
ghost use Rattle.finite.specs.Range.{sum_to};
ghost use Rattle.graph.specs.Tests.{most_degree};
ghost use Rattle.adjacency.specs.Adjacency.{adjacency_size, side, edge, set_edge};

use layout::MAX_VERTICES;

pub const SIDE: usize = MAX_VERTICES;

pub const ADJACENCY_BYTES: usize = SIDE * SIDE;

// The byte of v and w.
pub fn edge_at(adjacency: &[u8], v: usize, w: usize) -> usize
    requires { (length adjacency.now ≡ adjacency_size) × (v < side) × (w < side) }
    ensures { (result ≡ edge adjacency.now v w) × (result < 256) }
{
    usize::from(adjacency[v * SIDE + w])
}

// How many edges there are, by the degrees of the n vertices: each edge stands at both its ends.
pub fn edge_total(degrees: &[usize; MAX_VERTICES], n: usize) -> usize
    requires { (n ≤ side) × ((v : ℕ) → v < n → get_or degrees.now v 0 ≤ most_degree) }
    ensures { result ≡ sum_to n (λ v. get_or degrees.now v 0) / 2 }
{
    let mut sum = 0;
    for degree in &degrees[..n] {
        sum += degree;
    }
    sum / 2
}

// Puts x at (v, w) and at (w, v).
pub fn set_edge(adjacency: &mut [u8], v: usize, w: usize, x: u8)
    requires { (length adjacency.old ≡ adjacency_size) × (v < side) × (w < side) }
    ensures { adjacency.new ≡ set_edge adjacency.old v w x }
{
    adjacency[v * SIDE + w] = x;
    adjacency[w * SIDE + v] = x;
}
