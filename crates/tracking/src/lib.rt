// What is kept beside the matrix so that the open pairs need not be counted again for each join: how much each cell has, flags of the full ones,
// and the open pairs of each row.
#![tactic(auto)]

ghost use Rattle.std.specs.Prelude.{◌≡◌, ◌+◌, ◌≤◌, ◌<◌, replicate};
ghost use Rattle.graph.specs.Tests.{most_classes};
ghost use Rattle.table.specs.Inner.Cells.{cells_size, matrix_of};
ghost use Rattle.open_pairs.specs.Inner.Rows.{flags_size, Scannable};
ghost use Rattle.open_pairs.specs.Inner.Refresh.{Classed, Within};
ghost use Rattle.progress.specs.Inner.Work.{Arranged};
ghost use Rattle.tracking.specs.Inner.Track.{cell_place, CellsCountable, ClassArray, Counted, Tracked, has_now, have_after, is_full_now, flags_after, pairs_after};

use adjacency::SIDE;
use answer::switches::Switches;
use classes::{STARTS, block_sum};
use layout::MAX_VERTICES;
use open_pairs::refresh::{mark_full, refresh_range, refresh_row, refresh_switches};
use open_pairs::row::RowCounts;
use table::cells::{CELLS, upper_cell};
use table::class::{MAX_CLASSES, times_counted};

// One flag for each class and vertex.
const FLAGS: usize = MAX_CLASSES * SIDE;

// What completing goes by: n vertices, what each cell is to have, where each class starts, and the class of each vertex.
#[derive(Clone, Copy)]
pub struct Plan<'a> {
    pub n: usize,
    pub cells: &'a [u32; CELLS],
    pub starts: &'a [usize; STARTS],
    pub classes: &'a [u8; MAX_VERTICES],
}

// How much each cell has, a flag for each class and vertex where their cell is full, and the open pairs of each row.
#[derive(Drop)]
pub struct Tracking {
    pub have: [u32; CELLS],
    pub full: [u8; FLAGS],
    pub counts: RowCounts,
}

// Cell (k, l), k ≤ l: how much it has, and a flag where it is full.
fn count_cell(
    adjacency: &[u8],
    plan: &Plan<'_>,
    have: &mut [u32; CELLS],
    full: &mut [u8],
    k: usize,
    l: usize,
)
    requires { CellsCountable plan.now.n plan.now.cells.now plan.now.starts.now adjacency.now × Counted (cell_place k l) plan.now.n plan.now.cells.now plan.now.starts.now adjacency.now have.old full.old × (k ≤ l) × (l < most_classes) }
    ensures { Counted (cell_place k l + 1) plan.now.n plan.now.cells.now plan.now.starts.now adjacency.now have.new full.new }
{
    let starts = plan.starts;
    let want = upper_cell(plan.cells, k, l);
    let mut sum = 0;
    if want > 0 {
        sum = block_sum(
            adjacency,
            starts[k],
            starts[k + 1],
            starts[l],
            starts[l + 1],
        );
    }
    have[k * MAX_CLASSES + l] = sum as u32;
    if sum == want {
        mark_full(full, k, starts[l], starts[l + 1]);
    }
}

// Row k from the diagonal on.
fn count_row(adjacency: &[u8], plan: &Plan<'_>, have: &mut [u32; CELLS], full: &mut [u8], k: usize)
    requires { CellsCountable plan.now.n plan.now.cells.now plan.now.starts.now adjacency.now × Counted (cell_place k 0) plan.now.n plan.now.cells.now plan.now.starts.now adjacency.now have.old full.old × (k < most_classes) }
    ensures { Counted (cell_place (k + 1) 0) plan.now.n plan.now.cells.now plan.now.starts.now adjacency.now have.new full.new }
{
    for l in k..MAX_CLASSES {
        count_cell(adjacency, plan, have, full, k, l);
    }
}

// All rows.
fn count_cells(adjacency: &[u8], plan: &Plan<'_>, have: &mut [u32; CELLS], full: &mut [u8])
    requires { CellsCountable plan.now.n plan.now.cells.now plan.now.starts.now adjacency.now × (have.old ≡ replicate cells_size 0) × (full.old ≡ replicate flags_size 0) }
    ensures { Counted cells_size plan.now.n plan.now.cells.now plan.now.starts.now adjacency.now have.new full.new }
{
    for k in 0..MAX_CLASSES {
        count_row(adjacency, plan, have, full, k);
    }
}

// One more edge in cell (k, l), k ≤ l. Whether it is full now.
fn add_to_cell(cells: &[u32; CELLS], have: &mut [u32; CELLS], k: usize, l: usize) -> bool
    requires { (k ≤ l) × (l < most_classes) × (has_now k l have.old ≤ matrix_of cells.now k l) }
    ensures value { result ≡ is_full_now cells.now k l have.old }
    ensures have_after { have.new ≡ have_after k l have.old }
{
    let want = upper_cell(cells, k, l);
    let sum = upper_cell(have, k, l) + times_counted(k, l);
    have[k * MAX_CLASSES + l] = sum as u32;
    sum == want
}

impl Tracking {
    // All of it counted.
    pub fn new(adjacency: &[u8], plan: &Plan<'_>) -> Tracking
        requires { CellsCountable plan.now.n plan.now.cells.now plan.now.starts.now adjacency.now × ClassArray plan.now.n plan.now.starts.now plan.now.classes.now × Classed plan.now.n plan.now.classes.now }
        ensures { Tracked plan.now.n plan.now.cells.now plan.now.starts.now plan.now.classes.now adjacency.now result.have result.full result.counts }
    {
        let mut t = Tracking {
            have: [0; CELLS],
            full: [0; FLAGS],
            counts: RowCounts::none(),
        };
        count_cells(adjacency, plan, &mut t.have, &mut t.full);
        refresh_range(
            adjacency,
            &t.full,
            plan.classes,
            &mut t.counts,
            plan.n,
            0,
            plan.n,
        );
        t
    }

    // After v, of class k, was joined to a vertex of class l: where their cell is full now, all rows of class k lose their columns of class l.
    pub fn update(
        &mut self,
        adjacency: &[u8],
        plan: &Plan<'_>,
        v: usize,
        k: usize,
        l: usize,
        made: Switches,
    )
        requires scannable { Scannable plan.now.n adjacency.now self.old.full × Classed plan.now.n plan.now.classes.now × Arranged plan.now.n plan.now.starts.now × Within plan.now.n made }
        requires v_lt_n { (v < plan.now.n) × (k ≤ l) × (l < most_classes) × (has_now k l self.old.have ≤ matrix_of plan.now.cells.now k l) }
        ensures have_after { self.new.have ≡ have_after k l self.old.have }
        ensures full_after { self.new.full ≡ flags_after plan.now.cells.now plan.now.starts.now k l self.old.have self.old.full }
        ensures pairs_after { self.new.counts ≡ pairs_after plan.now.n plan.now.starts.now plan.now.classes.now adjacency.now (flags_after plan.now.cells.now plan.now.starts.now k l self.old.have self.old.full) v k (is_full_now plan.now.cells.now k l self.old.have) made self.old.counts }
    {
        let n = plan.n;
        let starts = plan.starts;
        let classes = plan.classes;
        let full = &mut self.full;
        let counts = &mut self.counts;
        if add_to_cell(plan.cells, &mut self.have, k, l) {
            mark_full(full, k, starts[l], starts[l + 1]);
            refresh_range(
                adjacency,
                full,
                classes,
                counts,
                n,
                starts[k],
                starts[k + 1],
            );
        } else {
            refresh_row(adjacency, full, classes, counts, n, v);
        }
        refresh_switches(adjacency, full, classes, counts, n, made);
    }
}
