// One join: x steps, the pair that it picks is joined, its record is written, and what is kept follows.
ghost use Rattle.std.specs.Prelude.{◌≡◌, true, ◌+◌, ◌≤◌, ◌<◌, length, get_or, set};
ghost use Rattle.graph.specs.Tests.{most_classes};
ghost use Rattle.table.specs.Inner.Cells.{matrix_of};
ghost use Rattle.adjacency.specs.Adjacency.{side};
ghost use Rattle.classes.specs.Inner.Block.{class_from};
ghost use Rattle.join_bytes.specs.Join.{join_bytes, join_switches};
ghost use Rattle.adjacency.specs.Inner.Degrees.{degrees_of};
ghost use Rattle.join_bytes.specs.Inner.Joinable.{Joinable};
ghost use Rattle.progress.specs.Inner.Work.{ran, WroteRecords, Arranged};
ghost use Rattle.shuffled_completion.specs.Shuffle.{next_shuffled, incomplete_shuffled};
ghost use Rattle.complete_shuffled.specs.Inner.Work.{Lows, low_after, Shuffling, shuffled_at};

use answer::switches::Switches;
use classes::STARTS;
use joining::{both_reliefs, join};
use layout::MAX_VERTICES;
use picking::{next_x, pick};
use progress::{Pair, Totals, advance, record_join};
use switching::End;
use table::class::class_degree;
use tracking::{Plan, Tracking};

// Edges added and switches made, and x.
#[derive(Clone, Copy)]
pub struct Shuffle {
    pub totals: Totals,
    pub x: u32,
}

// A vertex of class k before which all are saturated; the next search goes on from it.
fn low_of(
    degrees: &[usize; MAX_VERTICES],
    starts: &[usize; STARTS],
    low: &mut [usize; STARTS],
    k: usize,
) -> usize
    requires { (k < most_classes) × (get_or starts.now (k + 1) 0 ≤ side) }
    ensures value { result ≡ low_after degrees.now starts.now low.old k }
    ensures low_after { low.new ≡ set low.old k (low_after degrees.now starts.now low.old k) }
{
    let v = advance(degrees, low[k], starts[k + 1], class_degree(k));
    low[k] = v;
    v
}

// The pair joined, its vertices being of class k and l.
fn join_pair(
    adjacency: &mut [u8],
    degrees: &mut [usize; MAX_VERTICES],
    low: &mut [usize; STARTS],
    plan: &Plan<'_>,
    pair: Pair,
    k: usize,
    l: usize,
) -> Switches
    requires { Joinable plan.now.n (class_from plan.now.starts.now) adjacency.old pair.v pair.w × (degrees.old ≡ degrees_of plan.now.n adjacency.old) × Lows plan.now.n plan.now.starts.now adjacency.old low.old × Arranged plan.now.n plan.now.starts.now × (k ≡ class_from plan.now.starts.now pair.v) × (l ≡ class_from plan.now.starts.now pair.w) }
    ensures value { result ≡ join_switches plan.now.n (class_from plan.now.starts.now) adjacency.old pair.v pair.w }
    ensures adjacency_after { adjacency.new ≡ join_bytes plan.now.n (class_from plan.now.starts.now) adjacency.old pair.v pair.w }
    ensures degrees_after { degrees.new ≡ degrees_of plan.now.n (join_bytes plan.now.n (class_from plan.now.starts.now) adjacency.old pair.v pair.w) }
    ensures lows { Lows plan.now.n plan.now.starts.now (join_bytes plan.now.n (class_from plan.now.starts.now) adjacency.old pair.v pair.w) low.new }
{
    let row = low_of(degrees, plan.starts, low, k);
    let column = low_of(degrees, plan.starts, low, l);
    let v = End {
        at: pair.v,
        class: k,
        low: row,
    };
    let w = End {
        at: pair.w,
        class: l,
        low: column,
    };
    let joined = join(adjacency, degrees, plan.starts, plan.n, v, w);
    both_reliefs(joined)
}

// One join.
pub fn shuffle_step(
    adjacency: &mut [u8],
    output: &mut [u8],
    degrees: &mut [usize; MAX_VERTICES],
    low: &mut [usize; STARTS],
    tracking: &mut Tracking,
    plan: &Plan<'_>,
    done: Shuffle,
) -> Shuffle
    requires { Shuffling plan.now.n plan.now.cells.now plan.now.starts.now plan.now.classes.now adjacency.old tracking.old.have tracking.old.full tracking.old.counts low.old degrees.old (length output.old) (ran adjacency.old output.old done.totals) × (incomplete_shuffled plan.now.n (class_from plan.now.starts.now) (matrix_of plan.now.cells.now) (shuffled_at adjacency.old output.old done) ≡ true) }
    ensures result_after { shuffled_at adjacency.new output.new result ≡ next_shuffled plan.now.n (class_from plan.now.starts.now) (matrix_of plan.now.cells.now) (shuffled_at adjacency.old output.old done) }
    ensures wrote_records { WroteRecords done.totals.joins result.totals.joins output.old output.new }
    ensures shuffling { Shuffling plan.now.n plan.now.cells.now plan.now.starts.now plan.now.classes.now adjacency.new tracking.new.have tracking.new.full tracking.new.counts low.new degrees.new (length output.old) (ran adjacency.new output.new result.totals) }
{
    let stepped = next_x(done.x);
    let pair = pick(adjacency, plan, tracking, stepped);
    let v = pair.v;
    let w = pair.w;
    let k = usize::from(plan.classes[v]);
    let l = usize::from(plan.classes[w]);
    let made = join_pair(adjacency, degrees, low, plan, pair, k, l);
    let totals = record_join(output, done.totals, v, w, made);
    tracking.update(adjacency, plan, v, k, l, made);
    Shuffle { totals, x: stepped }
}
