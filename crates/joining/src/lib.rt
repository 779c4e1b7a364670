// Joining two vertices of the adjacency matrix, with at most two neighbour switches. The degrees that the vertices have so far
// stand beside the matrix.
#![tactic(auto)]

ghost use Rattle.std.specs.Prelude.{◌≡◌};
ghost use Rattle.adjacency.specs.Inner.Degrees.{degrees_of};
ghost use Rattle.join_bytes.specs.Join.{relieve_bytes, join_bytes, join_switches};
ghost use Rattle.classes.specs.Inner.Block.{class_from};
ghost use Rattle.join_bytes.specs.Inner.Joinable.{Joinable};
ghost use Rattle.switching.specs.Inner.Work.{Placed};
ghost use Rattle.joining.specs.Inner.Work.{relief_of, both_reliefs, cut_off, freed};

use answer::switches::{Switch, Switches};
use classes::STARTS;
use layout::MAX_VERTICES;
use switching::{End, link, neighbor_switch};
use table::class::class_degree;

// What making room took at both ends of a join: a switch, or nothing.
#[derive(Clone, Copy)]
pub struct Reliefs {
    pub v: Option<Switch>,
    pub w: Option<Switch>,
}

// Makes room at a: a neighbour switch if it is saturated.
fn relieve(
    adjacency: &mut [u8],
    degrees: &mut [usize; MAX_VERTICES],
    starts: &[usize; STARTS],
    n: usize,
    a: End,
    other: usize,
) -> Option<Switch>
    requires { Joinable n (class_from starts.now) adjacency.old a.at other × Placed n starts.now adjacency.old a other × (degrees.old ≡ degrees_of n adjacency.old) }
    ensures value { result ≡ relief_of n (class_from starts.now) adjacency.old a.at other }
    ensures adjacency_after { adjacency.new ≡ relieve_bytes n (class_from starts.now) adjacency.old a.at other }
    ensures degrees_after { degrees.new ≡ degrees_of n (relieve_bytes n (class_from starts.now) adjacency.old a.at other) }
{
    let v = a.at;
    if degrees[v] < class_degree(a.class) {
        return None;
    }
    Some(neighbor_switch(adjacency, degrees, starts, n, a, other))
}

// The switches of both ends, in the order made. No match of a pair: it copies both, and completing takes more instructions.
pub fn both_reliefs(made: Reliefs) -> Switches
    ensures { result ≡ both_reliefs made.v made.w }
{
    match made.v {
        None => match made.w {
            None => Switches::None,
            Some(y) => Switches::One(y),
        },
        Some(x) => match made.w {
            None => Switches::One(x),
            Some(y) => Switches::Two(x, y),
        },
    }
}

// The vertex that the switch of v cut off from v. Where there was none it is n, not None: callers take the lower of it and a column.
pub fn cut_off(n: usize, made: Reliefs) -> usize
    ensures { result ≡ cut_off n made.v }
{
    match made.v {
        None => n,
        Some(s) => s.t,
    }
}

// Joins v and w: room at v, then at w, then the edge. Callers make of the reliefs what they need, so that this stays small enough to be
// inlined: as a call of its own it read its ends back from memory, and shuffled completing took up to a quarter longer.
pub fn join(
    adjacency: &mut [u8],
    degrees: &mut [usize; MAX_VERTICES],
    starts: &[usize; STARTS],
    n: usize,
    v: End,
    w: End,
) -> Reliefs
    requires { Joinable n (class_from starts.now) adjacency.old v.at w.at × (degrees.old ≡ degrees_of n adjacency.old) × Placed n starts.now adjacency.old v w.at × Placed n starts.now adjacency.old w v.at }
    ensures w_value { (both_reliefs result.v result.w ≡ join_switches n (class_from starts.now) adjacency.old v.at w.at) × (cut_off n result.v ≡ freed n (class_from starts.now) adjacency.old v.at w.at) }
    ensures adjacency_after { adjacency.new ≡ join_bytes n (class_from starts.now) adjacency.old v.at w.at }
    ensures degrees_after { degrees.new ≡ degrees_of n (join_bytes n (class_from starts.now) adjacency.old v.at w.at) }
{
    let x = relieve(adjacency, degrees, starts, n, v, w.at);
    let y = relieve(adjacency, degrees, starts, n, w, v.at);
    link(adjacency, degrees, v.at, w.at);
    Reliefs { v: x, w: y }
}
