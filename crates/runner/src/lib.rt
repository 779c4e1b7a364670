// What the program does with its input: takes its blocks, lays out, completes, and writes the text that it prints.
#![tactic(auto)]

ghost use Rattle.std.specs.Prelude.{◌≡◌, ℕ, ◌≤◌, length};
ghost use Rattle.std.proofs.lemmas.List.Edits.{sets};
ghost use Rattle.state.specs.State.{state_of};
ghost use Rattle.answer.specs.Refusals.{Go};
ghost use Rattle.answer.specs.declared.CompleteAnswer.{CompleteAnswer};
ghost use Rattle.answer.specs.declared.LayOutAnswer.TheVariants.{LaidOut};
ghost use Rattle.io.specs.Counts.{IsPrefixLen};
ghost use Rattle.state.specs.Laid.{vertex_count};
ghost use Rattle.loan.specs.Loan.{loan_of};
ghost use Rattle.shuffled_completion.specs.Outcome.{choice_answer, choice_after};
ghost use Rattle.shuffled_completion.specs.Shuffle.{with_x};
ghost use Rattle.state_text.specs.StateText.{text_most};
ghost use Rattle.runner.specs.Program.{join_records_most, laid_text, taken_text, program_text};

use adjacency::ADJACENCY_BYTES;
use answer::{Choice, CompleteAnswer, LayOutAnswer, ShuffleAnswer};
use complete_shuffled::complete_shuffled;
use input_blocks::take_all;
use join_records::JOIN_RECORD_BYTES;
use journal::JOURNAL_BYTES;
use options::Form;
use state_text::{MAX_LIST_BYTES, MAX_TEXT_BYTES, put_state_text};
use swap_log::LOG_BYTES;
use text::put_refused;

// The most bytes of the records of completing: one for each edge.
const MAX_JOIN_RECORDS_BYTES: usize = JOIN_RECORD_BYTES * (MAX_LIST_BYTES / 2);

// The answer of completing without the last x, which is not shown.
fn without_x(answer: ShuffleAnswer) -> CompleteAnswer
    ensures { (x : ℕ) (a : CompleteAnswer) → answer ≡ with_x x a → result ≡ a }
{
    match answer {
        ShuffleAnswer::Completed(joins, switches, len, _) => CompleteAnswer::Completed(
            joins, switches, len,
        ),
        ShuffleAnswer::Refused(r) => CompleteAnswer::Refused(r),
    }
}

// Completes by the lowest open pairs, or by those that x picks, with room for every record.
fn complete_by(
    journal: &[u8],
    adjacency: &mut [u8],
    log: &mut [u8],
    choice: Choice,
    records: &mut [u8],
) -> CompleteAnswer
    requires { length records.old ≡ join_records_most }
    ensures value { result ≡ choice_answer choice (loan_of journal.now adjacency.old log.old) join_records_most }
    ensures adjacency_after { adjacency.new ≡ (choice_after choice (loan_of journal.now adjacency.old log.old) join_records_most).state.adjacency }
{
    match choice {
        Choice::Lowest => complete::complete(journal, adjacency, log, records),
        Choice::Picked(x) => without_x(complete_shuffled(journal, adjacency, log, x, records)),
    }
}

// Completes a laid state of n vertices, with a log of its own.
fn put_laid_text(
    journal: &[u8],
    adjacency: &mut [u8],
    form: Form,
    choice: Choice,
    n: usize,
    output: &mut [u8],
) -> usize
    requires { (n ≡ vertex_count (state_of journal.now adjacency.old)) × (text_most ≤ length output.old) }
    ensures value { result ≡ length (laid_text form choice (LaidOut n) (state_of journal.now adjacency.old)) }
    ensures output_after { output.new ≡ sets output.old 0 (laid_text form choice (LaidOut n) (state_of journal.now adjacency.old)) }
{
    let mut records = [0u8; MAX_JOIN_RECORDS_BYTES];
    let mut log = [0u8; LOG_BYTES];
    let answer = complete_by(journal, adjacency, &mut log, choice, &mut records);
    match answer {
        CompleteAnswer::Refused(r) => put_refused(output, 0, r),
        CompleteAnswer::Completed(_, switches, _) => put_state_text(
            journal, adjacency, form, n, switches, output,
        ),
    }
}

// Lays out what was taken.
fn put_taken_text(
    journal: &mut [u8],
    adjacency: &mut [u8],
    form: Form,
    choice: Choice,
    output: &mut [u8],
) -> usize
    requires { text_most ≤ length output.old }
    ensures value { result ≡ length (taken_text form choice Go (state_of journal.old adjacency.old)) }
    ensures output_after { output.new ≡ sets output.old 0 (taken_text form choice Go (state_of journal.old adjacency.old)) }
{
    let answer = lay_out::lay_out(journal, adjacency);
    match answer {
        LayOutAnswer::Refused(r) => put_refused(output, 0, r),
        LayOutAnswer::LaidOut(n) => put_laid_text(journal, adjacency, form, choice, n, output),
    }
}

// The program's text for an input, at the start of the output. Its length; it always fits.
pub fn program_text(
    form: Form,
    choice: Choice,
    input: &[u8],
    output: &mut [u8; MAX_TEXT_BYTES],
) -> usize
    ensures value { result ≡ length (program_text form choice input.now) }
    ensures prefix_len { IsPrefixLen result output.new }
    ensures output_after { output.new ≡ sets output.old 0 (program_text form choice input.now) }
{
    let mut journal = [0u8; JOURNAL_BYTES];
    let mut adjacency = [0u8; ADJACENCY_BYTES];
    match take_all(&mut journal, &adjacency, input) {
        Err(r) => put_refused(output, 0, r),
        Ok(()) => put_taken_text(&mut journal, &mut adjacency, form, choice, output),
    }
}

// Prints the lines for an input, completed by the lowest open pairs. Whether they were written.
pub fn run(rt: &impl Print, input: &[u8]) -> bool {
    let mut output = [0u8; MAX_TEXT_BYTES];
    let len = program_text(Form::Lines, Choice::Lowest, input, &mut output);
    rt.write_all(&output[..len]).is_ok()
}
