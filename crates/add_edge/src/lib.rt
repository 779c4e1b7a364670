// Adding an edge (document 01: join).
#![tactic(auto)]

ghost use Rattle.std.specs.Prelude.{◌≡◌, ◌+◌, ◌<◌, min, max, ltb, length, get_or};
ghost use Rattle.answer.specs.Refusals.{Go, refuse};
ghost use Rattle.answer.specs.declared.Cause.TheVariants.{CellNotShort};
ghost use Rattle.graph.specs.Tests.{most_classes, vertices};
ghost use Rattle.table.specs.Inner.Cells.{matrix_of, AtMost, cell_sum_most};
ghost use Rattle.layout.specs.Inner.Arrays.{count_in, table_in, Counts};
ghost use Rattle.journal.specs.Journal.{phase_laid, table_of};
ghost use Rattle.adjacency.specs.Adjacency.{adjacency_size, edge};
ghost use Rattle.state.specs.State.{state_of};
ghost use Rattle.state.specs.Checks.{phase_verdict};
ghost use Rattle.state.specs.Inner.Opened.{Opened};
ghost use Rattle.loan.specs.Loan.{loan_of};
ghost use Rattle.loan.specs.Inner.Opened.{loan_front};
ghost use Rattle.classes.specs.Inner.Block.{block_sum, BlockOf};
ghost use Rattle.add_edge.specs.Add.{add_unlinked, add_laid, add_answer, add_after};
ghost use Rattle.add_edge.specs.Inner.Work.{Unlinked, end_in, added_adjacency};

use adjacency::edge_at;
use answer::{AddAnswer, Cause, Refusal, refuse};
use classes::{STARTS, block_sum, class_at, starts};
use joining::{both_reliefs, join};
use layout::{MAX_VERTICES, vertex_count};
use loan::{loan_check, open_loan};
use state::pair_check;
use swap_log::empty_log;
use switching::End;
use table::cells::{CELLS, cell};
use table::class::MAX_CLASSES;

// Cell (k, l) of the edges so far is below the table.
fn is_short(
    adjacency: &[u8],
    cells: &[u32; CELLS],
    starts: &[usize; STARTS],
    k: usize,
    l: usize,
) -> bool
    requires { (length adjacency.now ≡ adjacency_size) × (k < most_classes) × (l < most_classes) × BlockOf adjacency.now (get_or starts.now k 0) (get_or starts.now (k + 1) 0) (get_or starts.now l 0) (get_or starts.now (l + 1) 0) }
    ensures { result ≡ ltb (block_sum (edge adjacency.now) (get_or starts.now k 0) (get_or starts.now (k + 1) 0) (get_or starts.now l 0) (get_or starts.now (l + 1) 0)) (matrix_of cells.now k l) }
{
    let from_k = starts[k];
    let to_k = starts[k + 1];
    let from_l = starts[l];
    let to_l = starts[l + 1];
    block_sum(adjacency, from_k, to_k, from_l, to_l) < cell(cells, k, l)
}

// Cell (k, l) is not short: its classes, the lower first.
fn full_cell(k: usize, l: usize) -> Refusal
    ensures { result ≡ refuse CellNotShort (min k l) (max k l) }
{
    if k <= l {
        return refuse(Cause::CellNotShort, k, l);
    }
    refuse(Cause::CellNotShort, l, k)
}

// Vertex v as an end of the join.
fn end_at(starts: &[usize; STARTS], v: usize) -> End
    ensures { result ≡ end_in starts.now v }
{
    let class = class_at(starts, v);
    End {
        at: v,
        class,
        low: starts[class],
    }
}

// On two unlinked vertices, among n: the check 16, then the switches and the edge.
fn add_unlinked(
    adjacency: &mut [u8],
    degrees: &mut [usize; MAX_VERTICES],
    cells: &[u32; CELLS],
    counts: &[usize; MAX_CLASSES],
    n: usize,
    v: usize,
    w: usize,
) -> AddAnswer
    requires { Unlinked (table_in cells.now (count_in counts.now 0)) adjacency.old degrees.old v w × AtMost cell_sum_most cells.now × Counts cells.now counts.now × (n ≡ vertices (table_in cells.now (count_in counts.now 0))) }
    ensures value { result ≡ add_unlinked (table_in cells.now (count_in counts.now 0)) adjacency.old v w }
    ensures adjacency_after { adjacency.new ≡ (let t = table_in cells.now (count_in counts.now 0) in added_adjacency (add_unlinked t adjacency.old v w) t adjacency.old v w) }
{
    let s = starts(counts);
    let x = end_at(&s, v);
    let y = end_at(&s, w);
    if !is_short(adjacency, cells, &s, x.class, y.class) {
        return AddAnswer::Refused(full_cell(x.class, y.class));
    }
    let made = join(adjacency, degrees, &s, n, x, y);
    AddAnswer::Added(both_reliefs(made))
}

// On a valid laid state: the checks 13 to 15, then the pair.
fn add_laid(
    journal: &[u8],
    adjacency: &mut [u8],
    cells: &[u32; CELLS],
    counts: &[usize; MAX_CLASSES],
    degrees: &mut [usize; MAX_VERTICES],
    v: usize,
    w: usize,
) -> AddAnswer
    requires { (phase_verdict phase_laid (state_of journal.now adjacency.old) ≡ Go) × Opened (state_of journal.now adjacency.old) cells.now counts.now degrees.old }
    ensures value { result ≡ add_laid (state_of journal.now adjacency.old) v w }
    ensures adjacency_after { adjacency.new ≡ added_adjacency (add_laid (state_of journal.now adjacency.old) v w) (table_of journal.now) adjacency.old v w }
{
    let n = vertex_count(cells, counts);
    if let Err(r) = pair_check(n, v, w) {
        return AddAnswer::Refused(r);
    }
    if edge_at(adjacency, v, w) != 0 {
        return AddAnswer::Refused(refuse(Cause::EdgePresent, 0, 0));
    }
    add_unlinked(adjacency, degrees, cells, counts, n, v, w)
}

// Behind the front: the laid matrix and its log, then the pair. A join empties the log.
fn add_checked(
    journal: &[u8],
    adjacency: &mut [u8],
    log: &mut [u8],
    v: usize,
    w: usize,
) -> AddAnswer
    requires { loan_front (loan_of journal.now adjacency.old log.old) ≡ Go }
    ensures value { result ≡ add_answer (loan_of journal.now adjacency.old log.old) v w }
    ensures adjacency_after { adjacency.new ≡ (add_after (loan_of journal.now adjacency.old log.old) v w).state.adjacency }
    ensures log_after { log.new ≡ (add_after (loan_of journal.now adjacency.old log.old) v w).log }
{
    let mut cells = [0u32; CELLS];
    let mut counts = [0usize; MAX_CLASSES];
    let mut degrees = [0usize; MAX_VERTICES];
    if !open_loan(
        journal,
        adjacency,
        log,
        &mut cells,
        &mut counts,
        &mut degrees,
    ) {
        return AddAnswer::Refused(refuse(Cause::InvalidState, 0, 0));
    }
    let answer = add_laid(journal, adjacency, &cells, &counts, &mut degrees, v, w);
    if let AddAnswer::Added(_) = answer {
        empty_log(log);
    }
    answer
}

pub fn add_edge(
    journal: &[u8],
    adjacency: &mut [u8],
    log: &mut [u8],
    v: usize,
    w: usize,
) -> AddAnswer
    ensures value { result ≡ add_answer (loan_of journal.now adjacency.old log.old) v w }
    ensures adjacency_after { adjacency.new ≡ (add_after (loan_of journal.now adjacency.old log.old) v w).state.adjacency }
    ensures log_after { log.new ≡ (add_after (loan_of journal.now adjacency.old log.old) v w).log }
{
    match loan_check(journal, adjacency, log) {
        Err(r) => AddAnswer::Refused(r),
        Ok(()) => add_checked(journal, adjacency, log, v, w),
    }
}
