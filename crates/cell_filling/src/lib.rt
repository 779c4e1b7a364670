// Filling one cell: its lowest open pair is joined, as often as it misses an edge.
#![tactic(auto)]

ghost use Rattle.std.specs.Prelude.{◌≡◌, length};
ghost use Rattle.finite.specs.Range.{fold_to};
ghost use Rattle.adjacency.specs.Inner.Degrees.{degrees_of};
ghost use Rattle.classes.specs.Inner.Block.{class_from};
ghost use Rattle.completion.specs.Inner.Cellwise.{cell_step};
ghost use Rattle.progress.specs.Inner.Work.{ran, WroteRecords};
ghost use Rattle.cell_filling.specs.Inner.Work.{CellOf, Resumes, Steppable, Fillable};

pub mod pair;

use crate::pair::{Cell, open_pair};
use classes::STARTS;
use joining::{both_reliefs, cut_off, join};
use layout::MAX_VERTICES;
use progress::{Pair, Totals, advance, record_join};
use switching::End;
use table::class::class_degree;

// Where the searches in a cell go on: at a row and a column, and for an unsaturated vertex of either class.
#[derive(Clone, Copy)]
pub struct Cursor {
    pub at: Pair,
    pub low: Pair,
}

#[derive(Clone, Copy)]
pub struct Step {
    pub cursor: Cursor,
    pub totals: Totals,
}

// The lowest open pair of the cell joined, and its record written. A switch of v may free a column that was passed: the cursor falls to it.
fn cell_step(
    adjacency: &mut [u8],
    output: &mut [u8],
    degrees: &mut [usize; MAX_VERTICES],
    starts: &[usize; STARTS],
    n: usize,
    cell: Cell,
    cursor: Cursor,
    totals: Totals,
) -> Step
    requires { Steppable n (class_from starts.now) cell cursor (length output.old) (ran adjacency.old output.old totals) degrees.old × CellOf n starts.now cell }
    ensures totals_after { (ran adjacency.new output.new result.totals ≡ cell_step n (class_from starts.now) cell.k cell.l (ran adjacency.old output.old totals)) × Resumes n (class_from starts.now) adjacency.new cell result.cursor }
    ensures wrote_records { WroteRecords totals.joins result.totals.joins output.old output.new }
    ensures degrees_after { degrees.new ≡ degrees_of n adjacency.new }
{
    let pair = open_pair(adjacency, cell, cursor.at.v, cursor.at.w);
    let v = advance(degrees, cursor.low.v, cell.rows.to, class_degree(cell.k));
    let w = advance(degrees, cursor.low.w, cell.columns.to, class_degree(cell.l));
    let row = End {
        at: pair.v,
        class: cell.k,
        low: v,
    };
    let column = End {
        at: pair.w,
        class: cell.l,
        low: w,
    };
    let done = join(adjacency, degrees, starts, n, row, column);
    let next = cut_off(n, done).min(pair.w + 1);
    let made = both_reliefs(done);
    let sum = record_join(output, totals, pair.v, pair.w, made);
    Step {
        cursor: Cursor {
            at: Pair { v: pair.v, w: next },
            low: Pair { v, w },
        },
        totals: sum,
    }
}

// m joins in the cell.
pub fn fill_steps(
    adjacency: &mut [u8],
    output: &mut [u8],
    degrees: &mut [usize; MAX_VERTICES],
    starts: &[usize; STARTS],
    n: usize,
    cell: Cell,
    m: usize,
    totals: Totals,
) -> Totals
    requires { Fillable n (class_from starts.now) cell m (length output.old) (ran adjacency.old output.old totals) degrees.old × CellOf n starts.now cell }
    ensures result_after { ran adjacency.new output.new result ≡ fold_to m (λ i. cell_step n (class_from starts.now) cell.k cell.l) (ran adjacency.old output.old totals) }
    ensures wrote_records { WroteRecords totals.joins result.joins output.old output.new }
    ensures degrees_after { degrees.new ≡ degrees_of n adjacency.new }
{
    let mut cursor = Cursor {
        at: Pair {
            v: cell.rows.from,
            w: 0,
        },
        low: Pair {
            v: cell.rows.from,
            w: cell.columns.from,
        },
    };
    let mut sum = totals;
    for _ in 0..m {
        let step = cell_step(adjacency, output, degrees, starts, n, cell, cursor, sum);
        cursor = step.cursor;
        sum = step.totals;
    }
    sum
}
