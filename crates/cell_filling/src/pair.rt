// The lowest open pair of a cell, searched from where the last search ended.
ghost use Rattle.std.specs.Prelude.{◌≡◌, ◌+◌, ◌≤◌, ◌<◌, length};
ghost use Rattle.finite.specs.Range.{lowest};
ghost use Rattle.adjacency.specs.Adjacency.{adjacency_size, side};
ghost use Rattle.cell_filling.specs.Inner.Cursor.{free_column};
ghost use Rattle.cell_filling.specs.Inner.Search.{first_column, lowest_column, has_column, Searchable};

use adjacency::SIDE;
use progress::Pair;

// The vertices from, .., to - 1.
#[derive(Clone, Copy)]
pub struct Span {
    pub from: usize,
    pub to: usize,
}

// Cell (k, l): the vertices of class k, and those of class l.
#[derive(Clone, Copy)]
pub struct Cell {
    pub k: usize,
    pub l: usize,
    pub rows: Span,
    pub columns: Span,
}

fn is_free(adjacency: &[u8], v: usize, w: usize) -> bool
    requires { (length adjacency.now ≡ adjacency_size) × (v < side) × (w < side) }
    ensures { result ≡ free_column adjacency.now v w }
{
    (adjacency[v * SIDE + w] == 0) & (v != w)
}

// The lowest w of from, .., to - 1 that is not linked to v and is not v; to where there is none (from, where to is below it).
fn free_column(adjacency: &[u8], v: usize, from: usize, to: usize) -> usize
    requires { (length adjacency.now ≡ adjacency_size) × (v < side) × (to ≤ side) }
    ensures { result ≡ lowest from to (free_column adjacency.now v) }
{
    for w in from..to {
        if is_free(adjacency, v, w) {
            return w;
        }
    }
    from.max(to)
}

// Where the columns of row v begin: on the diagonal above v.
fn first_column(cell: Cell, v: usize) -> usize
    requires { v < side }
    ensures { result ≡ first_column cell v }
{
    if cell.k == cell.l {
        return v + 1;
    }
    cell.columns.from
}

// The lowest open pair of the cell, from row v and in this row from column w on: the columns before it are not free.
pub fn open_pair(adjacency: &[u8], cell: Cell, v: usize, w: usize) -> Pair
    requires { (length adjacency.now ≡ adjacency_size) × Searchable adjacency.now cell v w }
    ensures { (result.v ≡ lowest v cell.rows.to (has_column adjacency.now cell)) × (result.v < cell.rows.to → result.w ≡ lowest_column adjacency.now cell result.v) }
{
    let bottom = cell.rows.to;
    let end = cell.columns.to;
    let mut from = w;
    for row in v..bottom {
        let first = from.max(first_column(cell, row));
        let column = free_column(adjacency, row, first, end);
        if column < end {
            return Pair { v: row, w: column };
        }
        from = 0;
    }
    Pair { v: bottom, w: end }
}
