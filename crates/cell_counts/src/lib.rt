// The joint degree matrix of a list of good edges, counted edge by edge.
#![tactic(auto)]

ghost use Rattle.std.specs.Prelude.{◌≡◌, ◌≤◌, ◌<◌, get_or};
ghost use Rattle.graph.specs.Graph.{degree};
ghost use Rattle.graph.specs.Tests.{most_classes};
ghost use Rattle.table.specs.Inner.Cells.{place};
ghost use Rattle.layout.specs.Layout.{most_vertices};
ghost use Rattle.edge_lists.specs.EdgeList.{listed, first_bad_edge, graph_of};
ghost use Rattle.table_records.specs.Inner.Bounds.{cell_most_own, CellsSmall};
ghost use Rattle.degree_counts.specs.Above.{first_above};
ghost use Rattle.degree_counts.specs.Inner.Degrees.{degree_in, HasDegrees};
ghost use Rattle.cell_counts.specs.Inner.Cells.{count_cell, HasCells};

use edge_lists::edge_pairs;
use layout::MAX_VERTICES;
use table::cells::{CELLS, place_of};
use table::class::times_counted;

fn count_cell(cells: &mut [u32; CELLS], a: usize, b: usize)
    requires { (a < most_classes) × (b < most_classes) × (get_or cells.old (place a b) 0 ≤ cell_most_own) }
    ensures { cells.new ≡ count_cell a b cells.old }
{
    cells[place_of(a, b)] += times_counted(a, b) as u32;
}

// The degree of the vertex that a byte names.
fn degree_at(degrees: &[usize; MAX_VERTICES], v: u8) -> usize
    requires { v < most_vertices }
    ensures { result ≡ degree_in degrees.now v }
{
    degrees[usize::from(v)]
}

// The joint degree matrix at the graph's own degrees. The contract alone uses the total.
pub fn cells_of(edges: &[u8], total: usize, degrees: &[usize; MAX_VERTICES]) -> [u32; CELLS]
    requires { (total ≤ most_vertices) × (first_bad_edge edges.now total ≡ listed edges.now) × (first_above edges.now total ≡ total) × HasDegrees degrees.now total (graph_of edges.now) }
    ensures { HasCells result total (degree total (graph_of edges.now)) (graph_of edges.now) × CellsSmall result }
{
    let mut cells = [0u32; CELLS];
    for &[v, w] in edge_pairs(edges) {
        let a = degree_at(degrees, v);
        let b = degree_at(degrees, w);
        count_cell(&mut cells, a, b);
    }
    cells
}
