// Removing an edge (document 01: lift).
#![tactic(auto)]

ghost use Rattle.std.specs.Prelude.{◌≡◌};
ghost use Rattle.answer.specs.Refusals.{Go};
ghost use Rattle.journal.specs.Journal.{phase_laid};
ghost use Rattle.state.specs.State.{state_of};
ghost use Rattle.state.specs.Checks.{phase_verdict};
ghost use Rattle.state.specs.Laid.{vertex_count};
ghost use Rattle.loan.specs.Loan.{loan_of};
ghost use Rattle.loan.specs.Inner.Opened.{loan_front};
ghost use Rattle.remove_edge.specs.Remove.{remove_laid, remove_answer, remove_after};
ghost use Rattle.remove_edge.specs.Inner.Work.{removed_adjacency};

use adjacency::{edge_at, set_edge};
use answer::{Cause, RemoveAnswer, refuse};
use layout::{MAX_VERTICES, vertex_count};
use loan::{loan_check, open_loan};
use state::pair_check;
use swap_log::empty_log;
use table::cells::CELLS;
use table::class::MAX_CLASSES;

// On a valid laid state of n vertices: the checks 13, 14 and 17, then the edge.
fn remove_laid(journal: &[u8], adjacency: &mut [u8], n: usize, v: usize, w: usize) -> RemoveAnswer
    requires { (phase_verdict phase_laid (state_of journal.now adjacency.old) ≡ Go) × (n ≡ vertex_count (state_of journal.now adjacency.old)) }
    ensures value { result ≡ remove_laid (state_of journal.now adjacency.old) v w }
    ensures adjacency_after { adjacency.new ≡ removed_adjacency (remove_laid (state_of journal.now adjacency.old) v w) adjacency.old v w }
{
    if let Err(r) = pair_check(n, v, w) {
        return RemoveAnswer::Refused(r);
    }
    if edge_at(adjacency, v, w) != 1 {
        return RemoveAnswer::Refused(refuse(Cause::EdgeAbsent, 0, 0));
    }
    set_edge(adjacency, v, w, 0);
    RemoveAnswer::Removed
}

// Behind the front: the laid matrix and its log, then the edge. A removal empties the log.
fn remove_checked(
    journal: &[u8],
    adjacency: &mut [u8],
    log: &mut [u8],
    v: usize,
    w: usize,
) -> RemoveAnswer
    requires { loan_front (loan_of journal.now adjacency.old log.old) ≡ Go }
    ensures value { result ≡ remove_answer (loan_of journal.now adjacency.old log.old) v w }
    ensures adjacency_after { adjacency.new ≡ (remove_after (loan_of journal.now adjacency.old log.old) v w).state.adjacency }
    ensures log_after { log.new ≡ (remove_after (loan_of journal.now adjacency.old log.old) v w).log }
{
    let mut cells = [0u32; CELLS];
    let mut counts = [0usize; MAX_CLASSES];
    let mut degrees = [0usize; MAX_VERTICES];
    if !open_loan(
        journal,
        adjacency,
        log,
        &mut cells,
        &mut counts,
        &mut degrees,
    ) {
        return RemoveAnswer::Refused(refuse(Cause::InvalidState, 0, 0));
    }
    let n = vertex_count(&cells, &counts);
    let answer = remove_laid(journal, adjacency, n, v, w);
    if let RemoveAnswer::Removed = answer {
        empty_log(log);
    }
    answer
}

pub fn remove_edge(
    journal: &[u8],
    adjacency: &mut [u8],
    log: &mut [u8],
    v: usize,
    w: usize,
) -> RemoveAnswer
    ensures value { result ≡ remove_answer (loan_of journal.now adjacency.old log.old) v w }
    ensures adjacency_after { adjacency.new ≡ (remove_after (loan_of journal.now adjacency.old log.old) v w).state.adjacency }
    ensures log_after { log.new ≡ (remove_after (loan_of journal.now adjacency.old log.old) v w).log }
{
    match loan_check(journal, adjacency, log) {
        Err(r) => RemoveAnswer::Refused(r),
        Ok(()) => remove_checked(journal, adjacency, log, v, w),
    }
}
