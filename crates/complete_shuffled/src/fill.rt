// All joins, from x on.
ghost use Rattle.std.specs.Prelude.{◌≡◌, length};
ghost use Rattle.table.specs.Inner.Cells.{matrix_of};
ghost use Rattle.classes.specs.Inner.Block.{class_from};
ghost use Rattle.completion.specs.Complete.{fresh, most_edges};
ghost use Rattle.progress.specs.Inner.Work.{Working, WroteRecords};
ghost use Rattle.shuffled_completion.specs.Shuffle.{run_shuffled};
ghost use Rattle.tracking.specs.Inner.Track.{ClassArray};
ghost use Rattle.complete_shuffled.specs.Inner.Work.{Lacks, shuffled_at, begins};

use crate::step::{Shuffle, shuffle_step};
use classes::STARTS;
use layout::MAX_VERTICES;
use progress::Totals;
use table::cells::CELLS;
use tracking::{Plan, Tracking};

// m joins: as many as are missing.
pub fn shuffle_cells(
    adjacency: &mut [u8],
    output: &mut [u8],
    degrees: &mut [usize; MAX_VERTICES],
    cells: &[u32; CELLS],
    starts: &[usize; STARTS],
    classes: &[u8; MAX_VERTICES],
    n: usize,
    m: usize,
    x: u32,
) -> Shuffle
    requires { Working n cells.now starts.now degrees.old (length output.old) (fresh adjacency.old) × ClassArray n starts.now classes.now × Lacks n cells.now adjacency.old m }
    ensures result_after { shuffled_at adjacency.new output.new result ≡ run_shuffled most_edges n (class_from starts.now) (matrix_of cells.now) (begins adjacency.old x) }
    ensures wrote_records { WroteRecords 0 result.totals.joins output.old output.new }
{
    let plan = Plan {
        n,
        cells,
        starts,
        classes,
    };
    let mut tracking = Tracking::new(adjacency, &plan);
    let mut low = *starts;
    let none = Totals {
        joins: 0,
        switches: 0,
    };
    let mut done = Shuffle { totals: none, x };
    for _ in 0..m {
        done = shuffle_step(
            adjacency,
            output,
            degrees,
            &mut low,
            &mut tracking,
            &plan,
            done,
        );
    }
    done
}
