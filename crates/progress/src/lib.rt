// The progress of completing, whichever pairs it joins: what is missing at its beginning, where the search for an unsaturated vertex goes on, and the
// record and the totals of each join; and what becomes of the log.
#![tactic(auto)]

ghost use Rattle.std.specs.Prelude.{◌≡◌, true, ◌*◌, ◌≤◌, ltb, length, get_or};
ghost use Rattle.std.proofs.lemmas.List.Edits.{sets};
ghost use Rattle.finite.specs.Range.{lowest};
ghost use Rattle.adjacency.specs.Adjacency.{side};
ghost use Rattle.join_records.specs.Record.{join_record_size, join_record};
ghost use Rattle.swap_log.specs.Log.{log_size, zero_after};
ghost use Rattle.completion.specs.Complete.{log_after};
ghost use Rattle.progress.specs.Inner.Work.{OpenArrays, Started, WroteRecords, Recordable, with_join};

use adjacency::edge_total;
use answer::switches::{Switches, switch_count};
use join_records::{JOIN_RECORD_BYTES, put_record};
use layout::{MAX_VERTICES, edges_wanted, vertex_count};
use swap_log::empty_log;
use table::cells::CELLS;
use table::class::MAX_CLASSES;

// Two vertices.
#[derive(Clone, Copy)]
pub struct Pair {
    pub v: usize,
    pub w: usize,
}

// Edges added and switches made.
#[derive(Clone, Copy)]
pub struct Totals {
    pub joins: usize,
    pub switches: usize,
}

// How many vertices there are, and how many edges are missing.
#[derive(Clone, Copy)]
pub struct Start {
    pub n: usize,
    pub missing: usize,
}

// What the work on a valid laid state begins with.
pub fn begin(
    cells: &[u32; CELLS],
    counts: &[usize; MAX_CLASSES],
    degrees: &[usize; MAX_VERTICES],
) -> Start
    requires { OpenArrays cells.now counts.now degrees.now }
    ensures { Started cells.now counts.now degrees.now result }
{
    let n = vertex_count(cells, counts);
    let missing = edges_wanted(counts) - edge_total(degrees, n);
    Start { n, missing }
}

// The lowest vertex of from, .., to - 1 with fewer than k edges; to where there is none (from, where to is below it).
pub fn advance(degrees: &[usize; MAX_VERTICES], from: usize, to: usize, k: usize) -> usize
    requires { to ≤ side }
    ensures { result ≡ lowest from to (λ i. ltb (get_or degrees.now i 0) k) }
{
    for i in from..to {
        if degrees[i] < k {
            return i;
        }
    }
    from.max(to)
}

// The record of a join written behind those of the joins before it, and one join more.
pub fn record_join(output: &mut [u8], totals: Totals, v: usize, w: usize, made: Switches) -> Totals
    requires { Recordable (length output.old) totals v w made }
    ensures value { (result ≡ with_join totals made) × WroteRecords totals.joins result.joins output.old output.new }
    ensures output_after { output.new ≡ sets output.old (join_record_size * totals.joins) (join_record v w made) }
{
    put_record(output, JOIN_RECORD_BYTES * totals.joins, v, w, made);
    Totals {
        joins: totals.joins + 1,
        switches: totals.switches + switch_count(made),
    }
}

// The log after so many joins: the first empties it.
pub fn log_after(log: &mut [u8], joins: usize)
    requires { (length log.old ≡ log_size) × (zero_after log.old ≡ true) }
    ensures { log.new ≡ log_after joins log.old }
{
    if joins == 0 {
        return;
    }
    empty_log(log);
}
