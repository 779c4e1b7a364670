// What the calls are lent that change a laid matrix, and clearing: journal, matrix and log, and the checks of them. A loan is checked once: the arrays
// that its check counts in are lent by the entry, which goes on with them.
#![tactic(auto)]

ghost use Rattle.std.specs.Prelude.{◌≡◌, true, length};
ghost use Rattle.state.specs.State.{state_of};
ghost use Rattle.state.specs.Inner.Opened.{Openable, Opened};
ghost use Rattle.swap_log.specs.Log.{log_size};
ghost use Rattle.loan.specs.Loan.{loan_of};
ghost use Rattle.loan.specs.Valid.{loan_lengths_ok};
ghost use Rattle.loan.specs.Inner.Opened.{loan_front, loan_opens};

use answer::{Cause, Refusal, stopped};
use journal::{Phase, is_in};
use layout::{MAX_VERTICES, vertex_count};
use slices::all_zero;
use state::{front_check, lengths_ok, open};
use swap_log::{LOG_BYTES, log_ok};
use table::cells::CELLS;
use table::class::MAX_CLASSES;

// Each has its length.
pub fn loan_lengths_ok(journal: &[u8], adjacency: &[u8], log: &[u8]) -> bool
    ensures { result ≡ loan_lengths_ok (loan_of journal.now adjacency.now log.now) }
{
    lengths_ok(journal, adjacency) & (log.len() == LOG_BYTES)
}

// The check 1, of 2 all but a laid matrix and its log, and 3: `open_loan` is what is left to check.
pub fn loan_check(journal: &[u8], adjacency: &[u8], log: &[u8]) -> Result<(), Refusal>
    ensures { result ≡ loan_front (loan_of journal.now adjacency.now log.now) }
{
    if log.len() != LOG_BYTES {
        return stopped(Cause::WrongLength);
    }
    front_check(journal, adjacency)?;
    if is_in(journal, Phase::Laid) {
        return Ok(());
    }
    if !all_zero(log) {
        return stopped(Cause::InvalidState);
    }
    stopped(Cause::WrongPhase)
}

// The check 2 of a laid matrix and of its log. Where it passes, the arrays, which are zeros before it, are what it has counted. The log is tried out in the
// matrix that is lent, which is then as it was.
pub fn open_loan(
    journal: &[u8],
    adjacency: &mut [u8],
    log: &[u8],
    cells: &mut [u32; CELLS],
    counts: &mut [usize; MAX_CLASSES],
    degrees: &mut [usize; MAX_VERTICES],
) -> bool
    requires { Openable (state_of journal.now adjacency.old) cells.old counts.old degrees.old × (length log.now ≡ log_size) }
    ensures value { result ≡ loan_opens (loan_of journal.now adjacency.old log.now) }
    ensures opened { result ≡ true → Opened (state_of journal.now adjacency.old) cells.new counts.new degrees.new }
    ensures adjacency_unchanged { adjacency.new ≡ adjacency.old }
{
    if !open(journal, adjacency, cells, counts, degrees) {
        return false;
    }
    let n = vertex_count(cells, counts);
    log_ok(adjacency, log, cells, counts, n)
}
