// The state: journal and adjacency together, and the checks of both, with which every entry that reads a state begins. A laid state is checked
// once: the arrays that its check counts in are lent by the entry, which goes on with them.
#![tactic(auto)]

ghost use Rattle.std.specs.Prelude.{◌≡◌, true, length, replicate};
ghost use Rattle.graph.specs.Tests.{most_classes};
ghost use Rattle.table.specs.Inner.Cells.{cells_size, AtMost, cell_sum_most};
ghost use Rattle.layout.specs.Inner.Arrays.{count_in, table_in, Counts};
ghost use Rattle.journal.specs.Journal.{journal_size, journal_ok, table_of};
ghost use Rattle.adjacency.specs.Adjacency.{adjacency_size};
ghost use Rattle.state.specs.State.{state_of};
ghost use Rattle.state.specs.Valid.{lengths_ok, laid_ok, valid};
ghost use Rattle.state.specs.Checks.{state_verdict, phase_verdict, pair_verdict};
ghost use Rattle.state.specs.Inner.Opened.{front_verdict, laid_front, Openable, Opened};

use adjacency::ADJACENCY_BYTES;
use answer::{Cause, Refusal, stopped};
use journal::{JOURNAL_BYTES, Phase, is_in, journal_ok, phase_of, sum_blocks};
use layout::{MAX_VERTICES, classes, count_classes, layout_check, vertex_count};
use matrix_check::adjacency_ok;
use table::cells::CELLS;
use table::class::MAX_CLASSES;

// Both have their lengths.
pub fn lengths_ok(journal: &[u8], adjacency: &[u8]) -> bool
    ensures { result ≡ lengths_ok (state_of journal.now adjacency.now) }
{
    (journal.len() == JOURNAL_BYTES) & (adjacency.len() == ADJACENCY_BYTES)
}

// What the journal says, in two arrays of zeros: the cells of its table, and how many vertices each class has.
pub fn sum_table(journal: &[u8], cells: &mut [u32; CELLS], counts: &mut [usize; MAX_CLASSES])
    requires { (length journal.now ≡ journal_size) × (journal_ok journal.now ≡ true) × (cells.old ≡ replicate cells_size 0) × (counts.old ≡ replicate most_classes 0) }
    ensures { (table_in cells.new (count_in counts.new 0) ≡ table_of journal.now) × AtMost cell_sum_most cells.new × Counts cells.new counts.new }
{
    let isolated = sum_blocks(journal, cells);
    count_classes(cells, isolated, counts);
}

// The check 2 of a laid matrix: the table passes its tests, and the matrix is one of its partial graphs. Where it passes, the arrays, which are zeros
// before it, are what it has counted.
pub fn open(
    journal: &[u8],
    adjacency: &[u8],
    cells: &mut [u32; CELLS],
    counts: &mut [usize; MAX_CLASSES],
    degrees: &mut [usize; MAX_VERTICES],
) -> bool
    requires { Openable (state_of journal.now adjacency.now) cells.old counts.old degrees.old }
    ensures value { result ≡ laid_ok (table_of journal.now) adjacency.now }
    ensures opened { result ≡ true → Opened (state_of journal.now adjacency.now) cells.new counts.new degrees.new }
{
    sum_table(journal, cells, counts);
    if layout_check(cells, counts).is_err() {
        return false;
    }
    let n = vertex_count(cells, counts);
    let c = classes(cells, counts);
    adjacency_ok(adjacency, n, &c, cells, degrees)
}

// The same for a call that goes on with nothing.
fn is_laid_ok(journal: &[u8], adjacency: &[u8]) -> bool
    requires { (length journal.now ≡ journal_size) × (length adjacency.now ≡ adjacency_size) × (journal_ok journal.now ≡ true) }
    ensures { result ≡ laid_ok (table_of journal.now) adjacency.now }
{
    let mut cells = [0u32; CELLS];
    let mut counts = [0usize; MAX_CLASSES];
    let mut degrees = [0usize; MAX_VERTICES];
    open(journal, adjacency, &mut cells, &mut counts, &mut degrees)
}

// The check 1 and, of 2, all but a laid matrix.
pub fn front_check(journal: &[u8], adjacency: &[u8]) -> Result<(), Refusal>
    ensures { result ≡ front_verdict (state_of journal.now adjacency.now) }
{
    if !lengths_ok(journal, adjacency) {
        return stopped(Cause::WrongLength);
    }
    if !journal_ok(journal) {
        return stopped(Cause::InvalidState);
    }
    if !is_in(journal, Phase::Taking) {
        return Ok(());
    }
    if !slices::all_zero(adjacency) {
        return stopped(Cause::InvalidState);
    }
    Ok(())
}

// And 3, for a call that needs a laid state: `open` is what is left to check.
pub fn laid_check(journal: &[u8], adjacency: &[u8]) -> Result<(), Refusal>
    ensures { result ≡ laid_front (state_of journal.now adjacency.now) }
{
    front_check(journal, adjacency)?;
    if !is_in(journal, Phase::Laid) {
        return stopped(Cause::WrongPhase);
    }
    Ok(())
}

// All of the check 2. It tests what `front_check` does, in flags alone: taking a block, which has no matrix to count, pays for each test.
fn is_valid(journal: &[u8], adjacency: &[u8]) -> bool
    requires { (length journal.now ≡ journal_size) × (length adjacency.now ≡ adjacency_size) }
    ensures { result ≡ valid (state_of journal.now adjacency.now) }
{
    if !journal_ok(journal) {
        return false;
    }
    if is_in(journal, Phase::Taking) {
        return slices::all_zero(adjacency);
    }
    is_laid_ok(journal, adjacency)
}

// The checks 1 and 2.
pub fn state_check(journal: &[u8], adjacency: &[u8]) -> Result<(), Refusal>
    ensures { result ≡ state_verdict (state_of journal.now adjacency.now) }
{
    if !lengths_ok(journal, adjacency) {
        return stopped(Cause::WrongLength);
    }
    if !is_valid(journal, adjacency) {
        return stopped(Cause::InvalidState);
    }
    Ok(())
}

// And 3, for a call that needs this phase, by its number.
pub fn phase_check(journal: &[u8], adjacency: &[u8], phase: usize) -> Result<(), Refusal>
    ensures { result ≡ phase_verdict phase (state_of journal.now adjacency.now) }
{
    state_check(journal, adjacency)?;
    if phase_of(journal) != phase {
        return stopped(Cause::WrongPhase);
    }
    Ok(())
}

// The checks 13 and 14 of a pair.
pub fn pair_check(n: usize, v: usize, w: usize) -> Result<(), Refusal>
    ensures { result ≡ pair_verdict n v w }
{
    if n <= v {
        return stopped(Cause::NoSuchVertex);
    }
    if n <= w {
        return stopped(Cause::NoSuchVertex);
    }
    if v == w {
        return stopped(Cause::SameVertex);
    }
    Ok(())
}
