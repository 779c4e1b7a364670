// Taking the last swap back (document 02, P8).
#![tactic(auto)]

ghost use Rattle.std.specs.Prelude.{◌≡◌};
ghost use Rattle.answer.specs.Refusals.{Go};
ghost use Rattle.loan.specs.Loan.{loan_of};
ghost use Rattle.loan.specs.Checks.{laid_verdict};
ghost use Rattle.loan.specs.Inner.Opened.{loan_front};
ghost use Rattle.undo_swap.specs.Undo.{undo_answer, undo_after};

use answer::{Cause, UndoAnswer, refuse};
use layout::MAX_VERTICES;
use loan::{loan_check, open_loan};
use swap_log::{swap_at, swap_count, undoing, write_swap};
use swapping::{Swap, swap_bytes};
use table::cells::CELLS;
use table::class::MAX_CLASSES;

// On a valid laid loan: the check 25, then the last swap taken back, and its record with it.
fn undo_laid(journal: &[u8], adjacency: &mut [u8], log: &mut [u8]) -> UndoAnswer
    requires { laid_verdict (loan_of journal.now adjacency.old log.old) ≡ Go }
    ensures value { result ≡ undo_answer (loan_of journal.now adjacency.old log.old) }
    ensures adjacency_after { adjacency.new ≡ (undo_after (loan_of journal.now adjacency.old log.old)).state.adjacency }
    ensures log_after { log.new ≡ (undo_after (loan_of journal.now adjacency.old log.old)).log }
{
    let m = swap_count(log);
    if m == 0 {
        return UndoAnswer::Refused(refuse(Cause::LogEmpty, 0, 0));
    }
    let x = swap_at(log, m - 1);
    swap_bytes(adjacency, undoing(x));
    let none = Swap {
        a: 0,
        b: 0,
        c: 0,
        d: 0,
    };
    write_swap(log, m - 1, m - 1, none);
    UndoAnswer::Undone
}

// Behind the front: the laid matrix and its log, then as above.
fn undo_checked(journal: &[u8], adjacency: &mut [u8], log: &mut [u8]) -> UndoAnswer
    requires { loan_front (loan_of journal.now adjacency.old log.old) ≡ Go }
    ensures value { result ≡ undo_answer (loan_of journal.now adjacency.old log.old) }
    ensures adjacency_after { adjacency.new ≡ (undo_after (loan_of journal.now adjacency.old log.old)).state.adjacency }
    ensures log_after { log.new ≡ (undo_after (loan_of journal.now adjacency.old log.old)).log }
{
    let mut cells = [0u32; CELLS];
    let mut counts = [0usize; MAX_CLASSES];
    let mut degrees = [0usize; MAX_VERTICES];
    if !open_loan(
        journal,
        adjacency,
        log,
        &mut cells,
        &mut counts,
        &mut degrees,
    ) {
        return UndoAnswer::Refused(refuse(Cause::InvalidState, 0, 0));
    }
    undo_laid(journal, adjacency, log)
}

pub fn undo_swap(journal: &[u8], adjacency: &mut [u8], log: &mut [u8]) -> UndoAnswer
    ensures value { result ≡ undo_answer (loan_of journal.now adjacency.old log.old) }
    ensures adjacency_after { adjacency.new ≡ (undo_after (loan_of journal.now adjacency.old log.old)).state.adjacency }
    ensures log_after { log.new ≡ (undo_after (loan_of journal.now adjacency.old log.old)).log }
{
    match loan_check(journal, adjacency, log) {
        Err(r) => UndoAnswer::Refused(r),
        Ok(()) => undo_checked(journal, adjacency, log),
    }
}
