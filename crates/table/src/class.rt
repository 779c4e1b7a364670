// Classes of vertices. Today a class is a degree, and `class_degree` is the one place that says so.
ghost use Rattle.std.specs.Prelude.{◌≡◌, ◌≤◌, ◌<◌};
ghost use Rattle.graph.specs.Graph.{times_counted};
ghost use Rattle.graph.specs.Tests.{class_degree};

use crate::degree::MAX_DEGREE;

// The classes are the numbers below this; those below LEAST_CLASS are of the isolated vertices, and have no cells.
pub const MAX_CLASSES: usize = MAX_DEGREE + 1;

pub const LEAST_CLASS: usize = 1;

// The degree that is laid out for the vertices of class k.
pub fn class_degree(k: usize) -> usize
    ensures { result ≡ class_degree k }
{
    k
}

// How often an edge between vertices of classes k and l counts in their cell: twice on the diagonal.
pub fn times_counted(k: usize, l: usize) -> usize
    ensures { (result ≡ times_counted k l) × (0 < result) × (result ≤ 2) }
{
    if k == l {
        return 2;
    }
    1
}
