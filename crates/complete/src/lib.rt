// Completing (document 01: finish): the checks 1, 2, 3 and 18, then cell by cell each cell gets the joins that it misses; for each join a record
// is written.
#![tactic(auto)]

ghost use Rattle.std.specs.Prelude.{◌≡◌, length};
ghost use Rattle.answer.specs.Refusals.{Go};
ghost use Rattle.journal.specs.Journal.{phase_laid};
ghost use Rattle.state.specs.State.{state_of};
ghost use Rattle.state.specs.Checks.{phase_verdict};
ghost use Rattle.state.specs.Inner.Opened.{Opened};
ghost use Rattle.loan.specs.Loan.{loan_of};
ghost use Rattle.loan.specs.Inner.Opened.{loan_front};
ghost use Rattle.completion.specs.Complete.{completed, ran_laid, output_ran, complete_answer, complete_after, complete_output};
ghost use Rattle.completion.specs.Inner.Laid.{adjacency_ran};

mod fill;

use crate::fill::fill_all;
use answer::{Cause, CompleteAnswer, refuse};
use join_records::JOIN_RECORD_BYTES;
use layout::MAX_VERTICES;
use loan::{loan_check, open_loan};
use progress::{Totals, begin, log_after};
use table::cells::CELLS;
use table::class::MAX_CLASSES;

// On a valid laid state: the check 18, then the joins that are missing.
fn complete_laid(
    journal: &[u8],
    adjacency: &mut [u8],
    cells: &[u32; CELLS],
    counts: &[usize; MAX_CLASSES],
    degrees: &mut [usize; MAX_VERTICES],
    output: &mut [u8],
) -> CompleteAnswer
    requires { (phase_verdict phase_laid (state_of journal.now adjacency.old) ≡ Go) × Opened (state_of journal.now adjacency.old) cells.now counts.now degrees.old }
    ensures value { result ≡ (let s = state_of journal.now adjacency.old in ran_laid (completed s) s (length output.old)) }
    ensures adjacency_after { adjacency.new ≡ (let s = state_of journal.now adjacency.old in adjacency_ran (ran_laid (completed s) s (length output.old)) (completed s) adjacency.old) }
    ensures output_after { output.new ≡ (let s = state_of journal.now adjacency.old in output_ran (ran_laid (completed s) s (length output.old)) (completed s) output.old) }
{
    let begun = begin(cells, counts, degrees);
    if output.len() < JOIN_RECORD_BYTES * begun.missing {
        return CompleteAnswer::Refused(refuse(Cause::OutputTooShort, 0, 0));
    }
    let starts = classes::starts(counts);
    let none = Totals {
        joins: 0,
        switches: 0,
    };
    let done = fill_all(adjacency, output, degrees, cells, &starts, begun.n, none);
    CompleteAnswer::Completed(done.joins, done.switches, JOIN_RECORD_BYTES * done.joins)
}

// Behind the front: the laid matrix and its log, then as above. The first join empties the log.
fn complete_checked(
    journal: &[u8],
    adjacency: &mut [u8],
    log: &mut [u8],
    output: &mut [u8],
) -> CompleteAnswer
    requires { loan_front (loan_of journal.now adjacency.old log.old) ≡ Go }
    ensures value { result ≡ complete_answer (loan_of journal.now adjacency.old log.old) (length output.old) }
    ensures adjacency_after { adjacency.new ≡ (complete_after (loan_of journal.now adjacency.old log.old) (length output.old)).state.adjacency }
    ensures log_after { log.new ≡ (complete_after (loan_of journal.now adjacency.old log.old) (length output.old)).log }
    ensures output_after { output.new ≡ complete_output (loan_of journal.now adjacency.old log.old) output.old }
{
    let mut cells = [0u32; CELLS];
    let mut counts = [0usize; MAX_CLASSES];
    let mut degrees = [0usize; MAX_VERTICES];
    if !open_loan(
        journal,
        adjacency,
        log,
        &mut cells,
        &mut counts,
        &mut degrees,
    ) {
        return CompleteAnswer::Refused(refuse(Cause::InvalidState, 0, 0));
    }
    let answer = complete_laid(journal, adjacency, &cells, &counts, &mut degrees, output);
    if let CompleteAnswer::Completed(joins, _, _) = answer {
        log_after(log, joins);
    }
    answer
}

pub fn complete(
    journal: &[u8],
    adjacency: &mut [u8],
    log: &mut [u8],
    output: &mut [u8],
) -> CompleteAnswer
    ensures value { result ≡ complete_answer (loan_of journal.now adjacency.old log.old) (length output.old) }
    ensures adjacency_after { adjacency.new ≡ (complete_after (loan_of journal.now adjacency.old log.old) (length output.old)).state.adjacency }
    ensures log_after { log.new ≡ (complete_after (loan_of journal.now adjacency.old log.old) (length output.old)).log }
    ensures output_after { output.new ≡ complete_output (loan_of journal.now adjacency.old log.old) output.old }
{
    match loan_check(journal, adjacency, log) {
        Err(r) => CompleteAnswer::Refused(r),
        Ok(()) => complete_checked(journal, adjacency, log, output),
    }
}
