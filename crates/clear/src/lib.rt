// Clearing.
#![tactic(auto)]

ghost use Rattle.std.specs.Prelude.{◌≡◌};
ghost use Rattle.loan.specs.Loan.{loan_of};
ghost use Rattle.clear.specs.Clear.{clear_answer, clear_after};

use answer::{Cause, ClearAnswer, refuse};
use loan::loan_lengths_ok;

// All three become zero; only their lengths are looked at.
pub fn clear(journal: &mut [u8], adjacency: &mut [u8], log: &mut [u8]) -> ClearAnswer
    ensures value { result ≡ clear_answer (loan_of journal.old adjacency.old log.old) }
    ensures journal_after { journal.new ≡ (clear_after (loan_of journal.old adjacency.old log.old)).state.journal }
    ensures adjacency_after { adjacency.new ≡ (clear_after (loan_of journal.old adjacency.old log.old)).state.adjacency }
    ensures log_after { log.new ≡ (clear_after (loan_of journal.old adjacency.old log.old)).log }
{
    if !loan_lengths_ok(journal, adjacency, log) {
        return ClearAnswer::Refused(refuse(Cause::WrongLength, 0, 0));
    }
    slices::clear_bytes(journal);
    slices::clear_bytes(adjacency);
    slices::clear_bytes(log);
    ClearAnswer::Cleared
}
