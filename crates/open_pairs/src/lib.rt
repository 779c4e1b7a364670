// The open pairs of a matrix (not linked, and their cell is short): how many there are, which one stands at a position, and the counts kept
// when rows change. For each vertex v the open pairs of v with the vertices above it are counted, and beside these counts stand their sums over
// eight rows.
#![tactic(auto)]

pub mod column;
pub mod refresh;
pub mod row;
