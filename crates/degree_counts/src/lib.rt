// The degrees of a list of good edges, counted edge by edge; the lowest vertex above 40, and the isolated vertices.
#![tactic(auto)]

ghost use Rattle.std.specs.Prelude.{◌≡◌, ◌^◌, ◌≤◌, ◌<◌};
ghost use Rattle.finite.specs.Range.{IsFound};
ghost use Rattle.layout.specs.Layout.{most_vertices};
ghost use Rattle.edge_lists.specs.EdgeList.{listed, first_bad_edge, graph_of};
ghost use Rattle.degree_counts.specs.Inner.Degrees.{count_edge, degree_in, first_above_in, isolated_in, HasDegrees};

use edge_lists::edge_pairs;
use finite::first_passing;
use layout::MAX_VERTICES;
use table::degree::MAX_DEGREE;

// An edge is one more for both its ends.
fn count_edge(degrees: &mut [usize; MAX_VERTICES], v: usize, w: usize)
    requires { (v < w) × (w < most_vertices) × (degree_in degrees.old v < 2 ^ 63) × (degree_in degrees.old w < 2 ^ 63) }
    ensures { degrees.new ≡ count_edge v w degrees.old }
{
    degrees[v] += 1;
    degrees[w] += 1;
}

// The degree of each vertex below the total, which the contract alone uses.
pub fn degrees_of(edges: &[u8], total: usize) -> [usize; MAX_VERTICES]
    requires { (total ≤ most_vertices) × (first_bad_edge edges.now total ≡ listed edges.now) }
    ensures { HasDegrees result total (graph_of edges.now) }
{
    let mut degrees = [0usize; MAX_VERTICES];
    for &[v, w] in edge_pairs(edges) {
        count_edge(&mut degrees, usize::from(v), usize::from(w));
    }
    degrees
}

// The lowest vertex whose degree is over 40.
pub fn first_above(degrees: &[usize; MAX_VERTICES], total: usize) -> Option<usize>
    requires { total ≤ most_vertices }
    ensures { IsFound total (first_above_in degrees.now total) result }
{
    first_passing(0, total, |v| MAX_DEGREE < degrees[v])
}

// How many vertices below the total have no edge.
pub fn isolated_in(degrees: &[usize; MAX_VERTICES], total: usize) -> usize
    requires { total ≤ most_vertices }
    ensures { (result ≡ isolated_in degrees.now total) × (result ≤ total) }
{
    degrees[..total]
        .iter()
        .filter(|degree| **degree == 0)
        .count()
}
