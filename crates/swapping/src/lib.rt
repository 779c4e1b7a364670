// The swap of document 003 (document 02, P8): the edges a – b and c – d become a – d and b – c.
#![tactic(auto)]

ghost use Rattle.std.specs.Prelude.{◌≡◌, ◌≤◌, ◌<◌, length};
ghost use Rattle.layout.specs.Inner.Arrays.{class_in};
ghost use Rattle.adjacency.specs.Adjacency.{adjacency_size, side};
ghost use Rattle.swapping.specs.Swap.{are_vertices, is_allowed, can_swap, swap_bytes};

use adjacency::{SIDE, set_edge};
use layout::MAX_VERTICES;

// The four vertices, as they are named.
#[derive(Clone, Copy)]
pub struct Swap {
    pub a: usize,
    pub b: usize,
    pub c: usize,
    pub d: usize,
}

// All four are among n vertices.
pub fn are_vertices(n: usize, x: Swap) -> bool
    ensures { result ≡ are_vertices n x }
{
    (x.a < n) & (x.b < n) & (x.c < n) & (x.d < n)
}

// The rule for four vertices. No test ends it early: most swaps that are looked at meet it.
pub fn is_allowed(adjacency: &[u8], classes: &[u8; MAX_VERTICES], x: Swap) -> bool
    requires { (length adjacency.now ≡ adjacency_size) × (x.a < side) × (x.b < side) × (x.c < side) × (x.d < side) }
    ensures { result ≡ is_allowed (class_in classes.now) adjacency.now x }
{
    let a = x.a;
    let b = x.b;
    let c = x.c;
    let d = x.d;
    let edges = (adjacency[a * SIDE + b] == 1) & (adjacency[c * SIDE + d] == 1);
    let distinct = (a != b) & (a != c) & (a != d) & (b != c) & (b != d) & (c != d);
    let free = (adjacency[a * SIDE + d] == 0) & (adjacency[b * SIDE + c] == 0);
    edges & distinct & (classes[a] == classes[c]) & free
}

// The whole rule.
pub fn can_swap(adjacency: &[u8], classes: &[u8; MAX_VERTICES], n: usize, x: Swap) -> bool
    requires { (length adjacency.now ≡ adjacency_size) × (n ≤ side) }
    ensures { result ≡ can_swap n (class_in classes.now) adjacency.now x }
{
    if !are_vertices(n, x) {
        return false;
    }
    is_allowed(adjacency, classes, x)
}

// The two edges removed, the two others added.
pub fn swap_bytes(adjacency: &mut [u8], x: Swap)
    requires { (length adjacency.old ≡ adjacency_size) × (x.a < side) × (x.b < side) × (x.c < side) × (x.d < side) }
    ensures { adjacency.new ≡ swap_bytes adjacency.old x }
{
    set_edge(adjacency, x.a, x.b, 0);
    set_edge(adjacency, x.c, x.d, 0);
    set_edge(adjacency, x.a, x.d, 1);
    set_edge(adjacency, x.b, x.c, 1);
}
