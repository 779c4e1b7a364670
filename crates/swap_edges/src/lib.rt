// Swapping two edges (document 02, P8).
#![tactic(auto)]

ghost use Rattle.std.specs.Prelude.{◌≡◌};
ghost use Rattle.answer.specs.Refusals.{Go};
ghost use Rattle.layout.specs.Inner.Arrays.{classes_of};
ghost use Rattle.journal.specs.Journal.{table_of};
ghost use Rattle.state.specs.State.{state_of};
ghost use Rattle.state.specs.Laid.{vertex_count};
ghost use Rattle.swapping.specs.Swap.{swap_of};
ghost use Rattle.loan.specs.Loan.{loan_of};
ghost use Rattle.loan.specs.Checks.{laid_verdict};
ghost use Rattle.loan.specs.Inner.Opened.{loan_front};
ghost use Rattle.swap_edges.specs.Swap.{swap_answer, swap_after};

use answer::{Cause, SwapAnswer, refuse};
use layout::{MAX_VERTICES, classes, vertex_count};
use loan::{loan_check, open_loan};
use swap_log::{MAX_SWAPS, swap_count, write_swap};
use swapping::{Swap, are_vertices, is_allowed, swap_bytes};
use table::cells::CELLS;
use table::class::MAX_CLASSES;

// On a valid laid loan: the checks 13, 23 and 24, then the swap and its record.
fn swap_laid(
    journal: &[u8],
    adjacency: &mut [u8],
    log: &mut [u8],
    classes: &[u8; MAX_VERTICES],
    n: usize,
    x: Swap,
) -> SwapAnswer
    requires { (laid_verdict (loan_of journal.now adjacency.old log.old) ≡ Go) × (classes.now ≡ classes_of (table_of journal.now)) × (n ≡ vertex_count (state_of journal.now adjacency.old)) }
    ensures value { result ≡ swap_answer (loan_of journal.now adjacency.old log.old) x }
    ensures adjacency_after { adjacency.new ≡ (swap_after (loan_of journal.now adjacency.old log.old) x).state.adjacency }
    ensures log_after { log.new ≡ (swap_after (loan_of journal.now adjacency.old log.old) x).log }
{
    if !are_vertices(n, x) {
        return SwapAnswer::Refused(refuse(Cause::NoSuchVertex, 0, 0));
    }
    if !is_allowed(adjacency, classes, x) {
        return SwapAnswer::Refused(refuse(Cause::SwapNotAllowed, 0, 0));
    }
    let m = swap_count(log);
    if MAX_SWAPS <= m {
        return SwapAnswer::Refused(refuse(Cause::LogFull, 0, 0));
    }
    swap_bytes(adjacency, x);
    write_swap(log, m + 1, m, x);
    SwapAnswer::Swapped
}

// Behind the front: the laid matrix and its log, then the swap.
fn swap_checked(journal: &[u8], adjacency: &mut [u8], log: &mut [u8], x: Swap) -> SwapAnswer
    requires { loan_front (loan_of journal.now adjacency.old log.old) ≡ Go }
    ensures value { result ≡ swap_answer (loan_of journal.now adjacency.old log.old) x }
    ensures adjacency_after { adjacency.new ≡ (swap_after (loan_of journal.now adjacency.old log.old) x).state.adjacency }
    ensures log_after { log.new ≡ (swap_after (loan_of journal.now adjacency.old log.old) x).log }
{
    let mut cells = [0u32; CELLS];
    let mut counts = [0usize; MAX_CLASSES];
    let mut degrees = [0usize; MAX_VERTICES];
    if !open_loan(
        journal,
        adjacency,
        log,
        &mut cells,
        &mut counts,
        &mut degrees,
    ) {
        return SwapAnswer::Refused(refuse(Cause::InvalidState, 0, 0));
    }
    let n = vertex_count(&cells, &counts);
    let c = classes(&cells, &counts);
    swap_laid(journal, adjacency, log, &c, n, x)
}

pub fn swap_edges(
    journal: &[u8],
    adjacency: &mut [u8],
    log: &mut [u8],
    a: usize,
    b: usize,
    c: usize,
    d: usize,
) -> SwapAnswer
    ensures value { result ≡ swap_answer (loan_of journal.now adjacency.old log.old) (swap_of a b c d) }
    ensures adjacency_after { adjacency.new ≡ (swap_after (loan_of journal.now adjacency.old log.old) (swap_of a b c d)).state.adjacency }
    ensures log_after { log.new ≡ (swap_after (loan_of journal.now adjacency.old log.old) (swap_of a b c d)).log }
{
    match loan_check(journal, adjacency, log) {
        Err(r) => SwapAnswer::Refused(r),
        Ok(()) => swap_checked(journal, adjacency, log, Swap { a, b, c, d }),
    }
}
