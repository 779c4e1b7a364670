// Laying out.
#![tactic(auto)]

ghost use Rattle.std.specs.Prelude.{◌≡◌, true, length};
ghost use Rattle.graph.specs.Tests.{vertices};
ghost use Rattle.layout.specs.Layout.{layout_verdict};
ghost use Rattle.journal.specs.Journal.{journal_size, journal_ok, table_of};
ghost use Rattle.state.specs.State.{state_of};
ghost use Rattle.lay_out.specs.LayOut.{laid_out, lay_out_answer, lay_out_after};

use answer::LayOutAnswer;
use journal::Phase;
use state::{phase_check, sum_table};
use table::cells::CELLS;
use table::class::MAX_CLASSES;

// The tests 9 to 12 on the summed table: N, or the refusal.
fn lay_out_table(journal: &[u8]) -> LayOutAnswer
    requires { (length journal.now ≡ journal_size) × (journal_ok journal.now ≡ true) }
    ensures { result ≡ laid_out (layout_verdict (table_of journal.now)) (vertices (table_of journal.now)) }
{
    let mut cells = [0u32; CELLS];
    let mut counts = [0usize; MAX_CLASSES];
    sum_table(journal, &mut cells, &mut counts);
    match layout::layout_check(&cells, &counts) {
        Err(r) => LayOutAnswer::Refused(r),
        Ok(()) => LayOutAnswer::LaidOut(layout::vertex_count(&cells, &counts)),
    }
}

fn lay_out_check(journal: &[u8], adjacency: &[u8]) -> LayOutAnswer
    ensures { result ≡ lay_out_answer (state_of journal.now adjacency.now) }
{
    let taking = usize::from(Phase::Taking.byte());
    match phase_check(journal, adjacency, taking) {
        Err(r) => LayOutAnswer::Refused(r),
        Ok(()) => lay_out_table(journal),
    }
}

pub fn lay_out(journal: &mut [u8], adjacency: &[u8]) -> LayOutAnswer
    ensures value { result ≡ lay_out_answer (state_of journal.old adjacency.now) }
    ensures journal_after { journal.new ≡ (lay_out_after (state_of journal.old adjacency.now)).journal }
{
    let answer = lay_out_check(journal, adjacency);
    if let LayOutAnswer::LaidOut(_) = answer {
        journal::set_laid(journal);
    }
    answer
}
