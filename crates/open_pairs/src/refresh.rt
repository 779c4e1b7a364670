// Rows counted anew, and a cell flagged as full.
ghost use Rattle.std.specs.Prelude.{◌≡◌, ◌≤◌, ◌<◌, length};
ghost use Rattle.answer.specs.Inner.Moved.{SwitchBelow};
ghost use Rattle.graph.specs.Tests.{most_classes};
ghost use Rattle.adjacency.specs.Adjacency.{side};
ghost use Rattle.open_pairs.specs.Inner.Rows.{flags_size, Scannable};
ghost use Rattle.open_pairs.specs.Inner.Refresh.{refresh_row, refresh_range, refresh_switch, refresh_switches, mark_full, Classed, Within};

use crate::column::row_open;
use crate::row::RowCounts;
use adjacency::SIDE;
use answer::switches::{Switch, Switches};
use layout::MAX_VERTICES;

// Row v counted anew.
pub fn refresh_row(
    adjacency: &[u8],
    full: &[u8],
    classes: &[u8; MAX_VERTICES],
    counts: &mut RowCounts,
    n: usize,
    v: usize,
)
    requires { Scannable n adjacency.now full.now × Classed n classes.now × (v < n) }
    ensures { counts.new ≡ refresh_row n classes.now adjacency.now full.now v counts.old }
{
    let m = row_open(adjacency, full, n, usize::from(classes[v]), v);
    counts.set_row(v, m);
}

// The rows from, .., to - 1.
pub fn refresh_range(
    adjacency: &[u8],
    full: &[u8],
    classes: &[u8; MAX_VERTICES],
    counts: &mut RowCounts,
    n: usize,
    from: usize,
    to: usize,
)
    requires { Scannable n adjacency.now full.now × Classed n classes.now × (from ≤ to) × (to ≤ n) }
    ensures { counts.new ≡ refresh_range n classes.now adjacency.now full.now from to counts.old }
{
    for v in from..to {
        refresh_row(adjacency, full, classes, counts, n, v);
    }
}

// The rows of the two edges that a switch moved.
fn refresh_switch(
    adjacency: &[u8],
    full: &[u8],
    classes: &[u8; MAX_VERTICES],
    counts: &mut RowCounts,
    n: usize,
    s: Switch,
)
    requires { Scannable n adjacency.now full.now × Classed n classes.now × SwitchBelow n s }
    ensures { counts.new ≡ refresh_switch n classes.now adjacency.now full.now s counts.old }
{
    refresh_row(adjacency, full, classes, counts, n, s.a.min(s.t));
    refresh_row(adjacency, full, classes, counts, n, s.b.min(s.t));
}

// The rows of the edges that the switches of a join moved.
pub fn refresh_switches(
    adjacency: &[u8],
    full: &[u8],
    classes: &[u8; MAX_VERTICES],
    counts: &mut RowCounts,
    n: usize,
    s: Switches,
)
    requires { Scannable n adjacency.now full.now × Classed n classes.now × Within n s }
    ensures { counts.new ≡ refresh_switches n classes.now adjacency.now full.now s counts.old }
{
    match s {
        Switches::None => {}
        Switches::One(x) => refresh_switch(adjacency, full, classes, counts, n, x),
        Switches::Two(x, y) => {
            refresh_switch(adjacency, full, classes, counts, n, x);
            refresh_switch(adjacency, full, classes, counts, n, y);
        }
    }
}

// The cell of class k and the class of the vertices from, .., to - 1 is full.
pub fn mark_full(full: &mut [u8], k: usize, from: usize, to: usize)
    requires { (length full.old ≡ flags_size) × (k < most_classes) × (from ≤ to) × (to ≤ side) }
    ensures { full.new ≡ mark_full k from to full.old }
{
    full[k * SIDE + from..k * SIDE + to].fill(1);
}
