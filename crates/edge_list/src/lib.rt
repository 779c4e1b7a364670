// Listing the edges (document 01: list).
#![tactic(auto)]

ghost use Rattle.std.specs.Prelude.{◌≡◌, ◌≤◌, length};
ghost use Rattle.std.proofs.lemmas.List.Edits.{sets};
ghost use Rattle.answer.specs.Refusals.{Go};
ghost use Rattle.journal.specs.Journal.{phase_laid};
ghost use Rattle.adjacency.specs.Adjacency.{adjacency_size, side};
ghost use Rattle.state.specs.State.{state_of};
ghost use Rattle.state.specs.Checks.{phase_verdict};
ghost use Rattle.state.specs.Inner.Opened.{laid_front, Opened};
ghost use Rattle.edge_list.specs.List.{list_bytes, list_answer, list_output};

use adjacency::{SIDE, edge_total};
use answer::{Cause, WrittenAnswer, refuse};
use edge_lists::put_row;
use layout::{MAX_VERTICES, vertex_count};
use state::{laid_check, open};
use table::cells::CELLS;
use table::class::MAX_CLASSES;

// All edges, row by row.
fn put_list(adjacency: &[u8], n: usize, output: &mut [u8]) -> usize
    requires { (length adjacency.now ≡ adjacency_size) × (n ≤ side) × (length (list_bytes n adjacency.now) ≤ length output.old) }
    ensures value { result ≡ length (list_bytes n adjacency.now) }
    ensures output_after { output.new ≡ sets output.old 0 (list_bytes n adjacency.now) }
{
    let mut a = 0;
    for v in 0..n {
        a = put_row(&adjacency[v * SIDE..v * SIDE + n], v, output, a);
    }
    a
}

// On a valid laid state: the check 18, then the list.
fn list_laid(
    journal: &[u8],
    adjacency: &[u8],
    cells: &[u32; CELLS],
    counts: &[usize; MAX_CLASSES],
    degrees: &[usize; MAX_VERTICES],
    output: &mut [u8],
) -> WrittenAnswer
    requires { (phase_verdict phase_laid (state_of journal.now adjacency.now) ≡ Go) × Opened (state_of journal.now adjacency.now) cells.now counts.now degrees.now }
    ensures value { result ≡ list_answer (state_of journal.now adjacency.now) (length output.old) }
    ensures output_after { output.new ≡ list_output (state_of journal.now adjacency.now) output.old }
{
    let n = vertex_count(cells, counts);
    let bytes = 2 * edge_total(degrees, n);
    if output.len() < bytes {
        return WrittenAnswer::Refused(refuse(Cause::OutputTooShort, 0, 0));
    }
    WrittenAnswer::Written(put_list(adjacency, n, output))
}

// Behind the front: the laid matrix, then as above.
fn list_checked(journal: &[u8], adjacency: &[u8], output: &mut [u8]) -> WrittenAnswer
    requires { laid_front (state_of journal.now adjacency.now) ≡ Go }
    ensures value { result ≡ list_answer (state_of journal.now adjacency.now) (length output.old) }
    ensures output_after { output.new ≡ list_output (state_of journal.now adjacency.now) output.old }
{
    let mut cells = [0u32; CELLS];
    let mut counts = [0usize; MAX_CLASSES];
    let mut degrees = [0usize; MAX_VERTICES];
    if !open(journal, adjacency, &mut cells, &mut counts, &mut degrees) {
        return WrittenAnswer::Refused(refuse(Cause::InvalidState, 0, 0));
    }
    list_laid(journal, adjacency, &cells, &counts, &degrees, output)
}

pub fn edge_list(journal: &[u8], adjacency: &[u8], output: &mut [u8]) -> WrittenAnswer
    ensures value { result ≡ list_answer (state_of journal.now adjacency.now) (length output.old) }
    ensures output_after { output.new ≡ list_output (state_of journal.now adjacency.now) output.old }
{
    match laid_check(journal, adjacency) {
        Err(r) => WrittenAnswer::Refused(r),
        Ok(()) => list_checked(journal, adjacency, output),
    }
}
