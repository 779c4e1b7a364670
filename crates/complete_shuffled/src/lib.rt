// Completing by shuffled choice (document 02, P7): the checks 1, 2, 3 and 18, then while a cell is short x steps and picks an open pair, which is
// joined; for each join a record is written.
#![tactic(auto)]

ghost use Rattle.std.specs.Prelude.{◌≡◌, length};
ghost use Rattle.answer.specs.Refusals.{Go};
ghost use Rattle.journal.specs.Journal.{phase_laid};
ghost use Rattle.state.specs.State.{state_of};
ghost use Rattle.state.specs.Checks.{phase_verdict};
ghost use Rattle.state.specs.Inner.Opened.{Opened};
ghost use Rattle.loan.specs.Loan.{loan_of};
ghost use Rattle.loan.specs.Inner.Opened.{loan_front};
ghost use Rattle.completion.specs.Complete.{ran_laid, output_ran};
ghost use Rattle.completion.specs.Inner.Laid.{adjacency_ran};
ghost use Rattle.shuffled_completion.specs.Shuffle.{shuffled, with_x, shuffle_answer, shuffle_after, shuffle_output};

mod fill;
mod step;

use crate::fill::shuffle_cells;
use answer::{Cause, ShuffleAnswer, refuse};
use join_records::JOIN_RECORD_BYTES;
use layout::MAX_VERTICES;
use loan::{loan_check, open_loan};
use progress::{begin, log_after};
use table::cells::CELLS;
use table::class::MAX_CLASSES;

// On a valid laid state: the check 18, then the joins that are missing.
fn shuffle_laid(
    journal: &[u8],
    adjacency: &mut [u8],
    cells: &[u32; CELLS],
    counts: &[usize; MAX_CLASSES],
    degrees: &mut [usize; MAX_VERTICES],
    x: u32,
    output: &mut [u8],
) -> ShuffleAnswer
    requires { (phase_verdict phase_laid (state_of journal.now adjacency.old) ≡ Go) × Opened (state_of journal.now adjacency.old) cells.now counts.now degrees.old }
    ensures value { result ≡ (let s = state_of journal.now adjacency.old in with_x (shuffled s x).x (ran_laid (shuffled s x).ran s (length output.old))) }
    ensures adjacency_after { adjacency.new ≡ (let s = state_of journal.now adjacency.old in adjacency_ran (ran_laid (shuffled s x).ran s (length output.old)) (shuffled s x).ran adjacency.old) }
    ensures output_after { output.new ≡ (let s = state_of journal.now adjacency.old in output_ran (ran_laid (shuffled s x).ran s (length output.old)) (shuffled s x).ran output.old) }
{
    let begun = begin(cells, counts, degrees);
    let missing = begun.missing;
    if output.len() < JOIN_RECORD_BYTES * missing {
        return ShuffleAnswer::Refused(refuse(Cause::OutputTooShort, 0, 0));
    }
    let starts = classes::starts(counts);
    let vertex_classes = layout::classes(cells, counts);
    let done = shuffle_cells(
        adjacency,
        output,
        degrees,
        cells,
        &starts,
        &vertex_classes,
        begun.n,
        missing,
        x,
    );
    let joins = done.totals.joins;
    ShuffleAnswer::Completed(
        joins,
        done.totals.switches,
        JOIN_RECORD_BYTES * joins,
        done.x,
    )
}

// Behind the front: the laid matrix and its log, then as above. The first join empties the log.
fn shuffle_checked(
    journal: &[u8],
    adjacency: &mut [u8],
    log: &mut [u8],
    x: u32,
    output: &mut [u8],
) -> ShuffleAnswer
    requires { loan_front (loan_of journal.now adjacency.old log.old) ≡ Go }
    ensures value { result ≡ shuffle_answer (loan_of journal.now adjacency.old log.old) x (length output.old) }
    ensures adjacency_after { adjacency.new ≡ (shuffle_after (loan_of journal.now adjacency.old log.old) x (length output.old)).state.adjacency }
    ensures log_after { log.new ≡ (shuffle_after (loan_of journal.now adjacency.old log.old) x (length output.old)).log }
    ensures output_after { output.new ≡ shuffle_output (loan_of journal.now adjacency.old log.old) x output.old }
{
    let mut cells = [0u32; CELLS];
    let mut counts = [0usize; MAX_CLASSES];
    let mut degrees = [0usize; MAX_VERTICES];
    if !open_loan(
        journal,
        adjacency,
        log,
        &mut cells,
        &mut counts,
        &mut degrees,
    ) {
        return ShuffleAnswer::Refused(refuse(Cause::InvalidState, 0, 0));
    }
    let answer = shuffle_laid(journal, adjacency, &cells, &counts, &mut degrees, x, output);
    if let ShuffleAnswer::Completed(joins, _, _, _) = answer {
        log_after(log, joins);
    }
    answer
}

pub fn complete_shuffled(
    journal: &[u8],
    adjacency: &mut [u8],
    log: &mut [u8],
    x: u32,
    output: &mut [u8],
) -> ShuffleAnswer
    ensures value { result ≡ shuffle_answer (loan_of journal.now adjacency.old log.old) x (length output.old) }
    ensures adjacency_after { adjacency.new ≡ (shuffle_after (loan_of journal.now adjacency.old log.old) x (length output.old)).state.adjacency }
    ensures log_after { log.new ≡ (shuffle_after (loan_of journal.now adjacency.old log.old) x (length output.old)).log }
    ensures output_after { output.new ≡ shuffle_output (loan_of journal.now adjacency.old log.old) x output.old }
{
    match loan_check(journal, adjacency, log) {
        Err(r) => ShuffleAnswer::Refused(r),
        Ok(()) => shuffle_checked(journal, adjacency, log, x, output),
    }
}
