// The neighbour switch, its two searches, and the edges that it moves. Beside the matrix stand the degrees that the vertices
// have so far.
#![tactic(auto)]

ghost use Rattle.std.specs.Prelude.{◌≡◌, false, ℕ, ◌+◌, ◌*◌, ◌≤◌, ◌<◌, leb, length, get_or};
ghost use Rattle.finite.specs.Range.{all_to};
ghost use Rattle.graph.specs.Switch.{unsaturated, can_transfer, transfer};
ghost use Rattle.adjacency.specs.Adjacency.{adjacency_size, side, edge, set_edge};
ghost use Rattle.adjacency.specs.Inner.Degrees.{degrees_of};
ghost use Rattle.classes.specs.Inner.Block.{class_from};
ghost use Rattle.join_bytes.specs.Join.{neighbor_switch, switch_at};
ghost use Rattle.switching.specs.Inner.Work.{lanes, with_edge, without_edge, Unlinkable, Linkable, Placed, can_stand_in, substitute_in};
ghost use Rattle.join_bytes.specs.Inner.Joinable.{Joinable};
ghost use Rattle.graph.specs.Tests.{most_classes, class_degree};

use adjacency::{SIDE, set_edge};
use answer::switches::Switch;
use classes::STARTS;
use layout::MAX_VERTICES;
use table::class::class_degree;

// How many bytes of a row are tested at once.
const LANES: usize = 16;

// An end of the edge to be: the vertex, its class, and a vertex of the class before which all but the other end are saturated.
#[derive(Clone, Copy)]
pub struct End {
    pub at: usize,
    pub class: usize,
    pub low: usize,
}

// Document 001's NeighborSwitch, line by line: its w, w' and t are a, b and t here.
pub fn neighbor_switch(
    adjacency: &mut [u8],
    degrees: &mut [usize; MAX_VERTICES],
    starts: &[usize; STARTS],
    n: usize,
    a: End,
    other: usize,
) -> Switch
    requires { Joinable n (class_from starts.now) adjacency.old a.at other × Placed n starts.now adjacency.old a other × (degrees.old ≡ degrees_of n adjacency.old) × (unsaturated n (class_from starts.now) class_degree (edge adjacency.old) a.at ≡ false) }
    ensures value { result ≡ switch_at n (class_from starts.now) adjacency.old a.at other }
    ensures adjacency_after { adjacency.new ≡ neighbor_switch n (class_from starts.now) adjacency.old a.at other }
    ensures degrees_after { degrees.new ≡ degrees_of n (neighbor_switch n (class_from starts.now) adjacency.old a.at other) }
{
    let b = choose_substitute(degrees, starts, a, other); // 1
    let t = choose_transfer(adjacency, n, a.at, b); // 2
    unlink(adjacency, degrees, a.at, t); // 3
    link(adjacency, degrees, b, t); // 4
    Switch { a: a.at, b, t }
}

fn can_stand_in(degrees: &[usize; MAX_VERTICES], class: usize, other: usize, b: usize) -> bool
    requires { b < side }
    ensures { result ≡ can_stand_in degrees.now (class_degree class) other b }
{
    (degrees[b] < class_degree(class)) & (b != other)
}

// Document 01's b: the lowest vertex that can stand in for a; else the other named one. The loops of both searches are `while`, and that of a row's part
// goes by index: with `lowest_passing`, ranges and a `zip` completing took up to 10 percent more instructions than its bar allows.
fn choose_substitute(
    degrees: &[usize; MAX_VERTICES],
    starts: &[usize; STARTS],
    a: End,
    other: usize,
) -> usize
    requires { (a.class < most_classes) × (get_or starts.now (a.class + 1) 0 ≤ side) }
    ensures { result ≡ substitute_in degrees.now starts.now a other }
{
    let class = a.class;
    let to = starts[class + 1];
    let mut b = a.low;
    while b < to {
        if can_stand_in(degrees, class, other, b) {
            return b;
        }
        b += 1;
    }
    other
}

fn can_transfer(adjacency: &[u8], a: usize, b: usize, t: usize) -> bool
    requires { (length adjacency.now ≡ adjacency_size) × (a < side) × (b < side) × (t < side) }
    ensures { result ≡ can_transfer (edge adjacency.now) a b t }
{
    (t != b) & (adjacency[a * SIDE + t] == 1) & (adjacency[b * SIDE + t] == 0)
}

// None of the next vertices from t on is linked to a and not to b. A flag and no early exit: one test of vectors.
fn none_transfers(adjacency: &[u8], a: usize, b: usize, t: usize) -> bool
    requires { (length adjacency.now ≡ adjacency_size) × (a < side) × (b < side) × (t + lanes ≤ side) }
    ensures { result ≡ all_to lanes (λ i. leb (edge adjacency.now a (t + i)) (edge adjacency.now b (t + i))) }
{
    let x = a * SIDE + t;
    let y = b * SIDE + t;
    let mut none = true;
    for i in 0..LANES {
        none = none & (adjacency[x + i] <= adjacency[y + i]);
    }
    none
}

// A vertex before which none can be t.
fn skip_transfers(adjacency: &[u8], n: usize, a: usize, b: usize) -> usize
    requires { (length adjacency.now ≡ adjacency_size) × (n ≤ side) × (a < side) × (b < side) }
    ensures { (result ≤ n) × ((i : ℕ) → i < result → can_transfer (edge adjacency.now) a b i ≡ false) }
{
    let mut t = 0;
    while t + LANES <= n {
        if !none_transfers(adjacency, a, b, t) {
            return t;
        }
        t += LANES;
    }
    t
}

// Document 01's t: the lowest vertex, not b, linked to a and not to b.
fn choose_transfer(adjacency: &[u8], n: usize, a: usize, b: usize) -> usize
    requires { (length adjacency.now ≡ adjacency_size) × (n ≤ side) × (a < side) × (b < side) }
    ensures { result ≡ transfer n (edge adjacency.now) a b }
{
    let mut t = skip_transfers(adjacency, n, a, b);
    while t < n {
        if can_transfer(adjacency, a, b, t) {
            return t;
        }
        t += 1;
    }
    t
}

// The edge v – w removed.
fn unlink(adjacency: &mut [u8], degrees: &mut [usize; MAX_VERTICES], v: usize, w: usize)
    requires { Unlinkable adjacency.old degrees.old v w }
    ensures adjacency_after { adjacency.new ≡ set_edge adjacency.old v w 0 }
    ensures degrees_after { degrees.new ≡ without_edge degrees.old v w }
{
    set_edge(adjacency, v, w, 0);
    degrees[v] -= 1;
    degrees[w] -= 1;
}

// The edge v – w added.
pub fn link(adjacency: &mut [u8], degrees: &mut [usize; MAX_VERTICES], v: usize, w: usize)
    requires { Linkable adjacency.old degrees.old v w }
    ensures adjacency_after { adjacency.new ≡ set_edge adjacency.old v w 1 }
    ensures degrees_after { degrees.new ≡ with_edge degrees.old v w }
{
    set_edge(adjacency, v, w, 1);
    // w first: `unlink` writes it last, so that a switch, where w is t, takes fewer instructions.
    degrees[w] += 1;
    degrees[v] += 1;
}
