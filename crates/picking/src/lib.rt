// Picking: x steps, and names an open pair by its position.
#![tactic(auto)]

ghost use Rattle.std.specs.Prelude.{◌≡◌, ◌*◌, ◌%◌, ◌<◌};
ghost use Rattle.shuffled_completion.specs.Choice.{next_x, open_count, pair_v, pair_w, position};
ghost use Rattle.table.specs.Inner.Cells.{matrix_of};
ghost use Rattle.classes.specs.Inner.Block.{class_from};
ghost use Rattle.completion.specs.Inner.Cellwise.{Filling};
ghost use Rattle.tracking.specs.Inner.Track.{Tracked};

use open_pairs::column::column_at;
use progress::Pair;
use tracking::{Plan, Tracking};

// The step of x.
const MULTIPLIER: u64 = 1664525;

const INCREMENT: u32 = 1013904223;

const TWO_TO_32: u64 = 4294967296;

// x times the multiplier, modulo 2^32.
fn multiply(x: u32) -> u32
    ensures { result ≡ (x * 1664525) % 4294967296 }
{
    ((x as u64) * MULTIPLIER % TWO_TO_32) as u32
}

// x after one step.
pub fn next_x(x: u32) -> u32
    ensures { result ≡ next_x x }
{
    std::num::wrapping_add_u32(multiply(x), INCREMENT)
}

// x divided by this picks: its low 16 bits take no part.
const LOW_PART: usize = 65536;

// The pair, the lower vertex first.
pub fn pick(adjacency: &[u8], plan: &Plan<'_>, tracking: &Tracking, x: u32) -> Pair
    requires { Tracked plan.now.n plan.now.cells.now plan.now.starts.now plan.now.classes.now adjacency.now tracking.now.have tracking.now.full tracking.now.counts × Filling plan.now.n (class_from plan.now.starts.now) (matrix_of plan.now.cells.now) adjacency.now × (0 < open_count plan.now.n (class_from plan.now.starts.now) (matrix_of plan.now.cells.now) adjacency.now) }
    ensures v_value { result.v ≡ pair_v plan.now.n (class_from plan.now.starts.now) (matrix_of plan.now.cells.now) adjacency.now (position plan.now.n (class_from plan.now.starts.now) (matrix_of plan.now.cells.now) adjacency.now x) }
    ensures w_value { result.w ≡ pair_w plan.now.n (class_from plan.now.starts.now) (matrix_of plan.now.cells.now) adjacency.now (position plan.now.n (class_from plan.now.starts.now) (matrix_of plan.now.cells.now) adjacency.now x) result.v }
{
    let counts = &tracking.counts;
    let m = counts.total();
    let place = counts.row_at(x as usize / LOW_PART % m);
    let v = place.at;
    let k = usize::from(plan.classes[v]);
    let w = column_at(adjacency, &tracking.full, plan.n, k, v, place.rest);
    Pair { v, w }
}
