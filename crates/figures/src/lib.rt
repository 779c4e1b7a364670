// Figures.
#![tactic(auto)]

ghost use Rattle.std.specs.Prelude.{◌≡◌, false};
ghost use Rattle.answer.specs.Refusals.{Go};
ghost use Rattle.journal.specs.Journal.{phase_laid, phase};
ghost use Rattle.state.specs.State.{state_of};
ghost use Rattle.state.specs.Checks.{phase_verdict};
ghost use Rattle.state.specs.Inner.Opened.{front_verdict, Opened};
ghost use Rattle.figures.specs.Figures.{figures_answer, figures_of};

use adjacency::edge_total;
use answer::{Cause, Figures, FiguresAnswer, refuse};
use journal::{Phase, block_count, is_in};
use layout::{MAX_VERTICES, edges_wanted, vertex_count};
use state::{front_check, open};
use table::cells::CELLS;
use table::class::MAX_CLASSES;

// The figures of a laid state.
fn figures_laid(
    journal: &[u8],
    adjacency: &[u8],
    cells: &[u32; CELLS],
    counts: &[usize; MAX_CLASSES],
    degrees: &[usize; MAX_VERTICES],
) -> Figures
    requires { (phase_verdict phase_laid (state_of journal.now adjacency.now) ≡ Go) × Opened (state_of journal.now adjacency.now) cells.now counts.now degrees.now }
    ensures { result ≡ figures_of false (state_of journal.now adjacency.now) }
{
    let vertices = vertex_count(cells, counts);
    let blocks = block_count(journal);
    let wanted = edges_wanted(counts);
    let laid = edge_total(degrees, vertices);
    Figures {
        phase: usize::from(Phase::Laid.byte()),
        blocks,
        vertices,
        wanted,
        laid,
    }
}

// Behind the front, laid out: the laid matrix, then as above.
fn figures_checked(journal: &[u8], adjacency: &[u8]) -> FiguresAnswer
    requires { (front_verdict (state_of journal.now adjacency.now) ≡ Go) × (phase journal.now ≡ phase_laid) }
    ensures { result ≡ figures_answer (state_of journal.now adjacency.now) }
{
    let mut cells = [0u32; CELLS];
    let mut counts = [0usize; MAX_CLASSES];
    let mut degrees = [0usize; MAX_VERTICES];
    if !open(journal, adjacency, &mut cells, &mut counts, &mut degrees) {
        return FiguresAnswer::Refused(refuse(Cause::InvalidState, 0, 0));
    }
    FiguresAnswer::Reported(figures_laid(journal, adjacency, &cells, &counts, &degrees))
}

pub fn figures(journal: &[u8], adjacency: &[u8]) -> FiguresAnswer
    ensures { result ≡ figures_answer (state_of journal.now adjacency.now) }
{
    if let Err(r) = front_check(journal, adjacency) {
        return FiguresAnswer::Refused(r);
    }
    if is_in(journal, Phase::Taking) {
        return FiguresAnswer::Reported(Figures {
            phase: usize::from(Phase::Taking.byte()),
            blocks: block_count(journal),
            vertices: 0,
            wanted: 0,
            laid: 0,
        });
    }
    figures_checked(journal, adjacency)
}
