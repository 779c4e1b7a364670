// The C interface: one export for each entry (include/replica.h). Each calls the entry and hands its answer back in document 01's numbers.
#![tactic(auto)]

ghost use Rattle.std.specs.Prelude.{◌≡◌, length};
ghost use Rattle.answer.specs.Numbers.{clear_numbers, take_numbers, lay_out_numbers, figures_numbers, add_numbers, remove_numbers, swap_numbers, undo_numbers, complete_numbers, shuffle_numbers, written_numbers, read_numbers};
ghost use Rattle.state.specs.State.{state_of};
ghost use Rattle.swapping.specs.Swap.{swap_of};
ghost use Rattle.loan.specs.Loan.{loan_of};
ghost use Rattle.clear.specs.Clear.{clear_answer, clear_after};
ghost use Rattle.take_block.specs.Take.{take_answer, take_after};
ghost use Rattle.held_block.specs.Held.{length_answer};
ghost use Rattle.lay_out.specs.LayOut.{lay_out_answer, lay_out_after};
ghost use Rattle.figures.specs.Figures.{figures_answer};
ghost use Rattle.add_edge.specs.Add.{add_answer, add_after};
ghost use Rattle.remove_edge.specs.Remove.{remove_answer, remove_after};
ghost use Rattle.swap_edges.specs.Swap.{swap_answer, swap_after};
ghost use Rattle.undo_swap.specs.Undo.{undo_answer, undo_after};
ghost use Rattle.edge_list.specs.List.{list_answer, list_output};
ghost use Rattle.jdm_of_edges.specs.Survey.{survey_answer, survey_output};
ghost use Rattle.graph6_write.specs.Write.{write_answer, write_output};
ghost use Rattle.graph6_read.specs.Read.{read_answer, read_output};
ghost use Rattle.completion.specs.Complete.{complete_answer, complete_after, complete_output};
ghost use Rattle.shuffled_completion.specs.Shuffle.{shuffle_answer, shuffle_after, shuffle_output};
ghost use Rattle.numbers.specs.Flat.{flat, flat_join, held_numbers};

use numbers::{ReplicaAnswer, ReplicaJoin};

#[unsafe(no_mangle)]
pub extern "C" fn replica_clear(
    journal: &mut [u8],
    adjacency: &mut [u8],
    log: &mut [u8],
) -> ReplicaAnswer
    ensures value { result ≡ flat (clear_numbers (clear_answer (loan_of journal.old adjacency.old log.old))) }
    ensures journal_after { journal.new ≡ (clear_after (loan_of journal.old adjacency.old log.old)).state.journal }
    ensures adjacency_after { adjacency.new ≡ (clear_after (loan_of journal.old adjacency.old log.old)).state.adjacency }
    ensures log_after { log.new ≡ (clear_after (loan_of journal.old adjacency.old log.old)).log }
{
    ReplicaAnswer::from(clear::clear(journal, adjacency, log))
}

#[unsafe(no_mangle)]
pub extern "C" fn replica_take_block(
    journal: &mut [u8],
    adjacency: &[u8],
    number: usize,
    block: &[u8],
) -> ReplicaAnswer
    ensures value { result ≡ flat (take_numbers (take_answer (state_of journal.old adjacency.now) number block.now)) }
    ensures journal_after { journal.new ≡ (take_after (state_of journal.old adjacency.now) number block.now).journal }
{
    ReplicaAnswer::from(take_block::take_block(journal, adjacency, number, block))
}

#[unsafe(no_mangle)]
pub extern "C" fn replica_held_block(
    journal: &[u8],
    adjacency: &[u8],
    number: usize,
) -> ReplicaAnswer
    ensures { result ≡ flat (held_numbers number (length_answer (state_of journal.now adjacency.now) number)) }
{
    numbers::of_held(
        number,
        held_block::held_block_length(journal, adjacency, number),
    )
}

#[unsafe(no_mangle)]
pub extern "C" fn replica_lay_out(journal: &mut [u8], adjacency: &[u8]) -> ReplicaAnswer
    ensures value { result ≡ flat (lay_out_numbers (lay_out_answer (state_of journal.old adjacency.now))) }
    ensures journal_after { journal.new ≡ (lay_out_after (state_of journal.old adjacency.now)).journal }
{
    ReplicaAnswer::from(lay_out::lay_out(journal, adjacency))
}

#[unsafe(no_mangle)]
pub extern "C" fn replica_add_edge(
    journal: &[u8],
    adjacency: &mut [u8],
    log: &mut [u8],
    v: usize,
    w: usize,
) -> ReplicaJoin
    ensures value { result ≡ flat_join (add_numbers (add_answer (loan_of journal.now adjacency.old log.old) v w)) }
    ensures adjacency_after { adjacency.new ≡ (add_after (loan_of journal.now adjacency.old log.old) v w).state.adjacency }
    ensures log_after { log.new ≡ (add_after (loan_of journal.now adjacency.old log.old) v w).log }
{
    ReplicaJoin::from(add_edge::add_edge(journal, adjacency, log, v, w))
}

#[unsafe(no_mangle)]
pub extern "C" fn replica_remove_edge(
    journal: &[u8],
    adjacency: &mut [u8],
    log: &mut [u8],
    v: usize,
    w: usize,
) -> ReplicaAnswer
    ensures value { result ≡ flat (remove_numbers (remove_answer (loan_of journal.now adjacency.old log.old) v w)) }
    ensures adjacency_after { adjacency.new ≡ (remove_after (loan_of journal.now adjacency.old log.old) v w).state.adjacency }
    ensures log_after { log.new ≡ (remove_after (loan_of journal.now adjacency.old log.old) v w).log }
{
    ReplicaAnswer::from(remove_edge::remove_edge(journal, adjacency, log, v, w))
}

#[unsafe(no_mangle)]
pub extern "C" fn replica_swap_edges(
    journal: &[u8],
    adjacency: &mut [u8],
    log: &mut [u8],
    a: usize,
    b: usize,
    c: usize,
    d: usize,
) -> ReplicaAnswer
    ensures value { result ≡ flat (swap_numbers (swap_answer (loan_of journal.now adjacency.old log.old) (swap_of a b c d))) }
    ensures adjacency_after { adjacency.new ≡ (swap_after (loan_of journal.now adjacency.old log.old) (swap_of a b c d)).state.adjacency }
    ensures log_after { log.new ≡ (swap_after (loan_of journal.now adjacency.old log.old) (swap_of a b c d)).log }
{
    ReplicaAnswer::from(swap_edges::swap_edges(journal, adjacency, log, a, b, c, d))
}

#[unsafe(no_mangle)]
pub extern "C" fn replica_undo_swap(
    journal: &[u8],
    adjacency: &mut [u8],
    log: &mut [u8],
) -> ReplicaAnswer
    ensures value { result ≡ flat (undo_numbers (undo_answer (loan_of journal.now adjacency.old log.old))) }
    ensures adjacency_after { adjacency.new ≡ (undo_after (loan_of journal.now adjacency.old log.old)).state.adjacency }
    ensures log_after { log.new ≡ (undo_after (loan_of journal.now adjacency.old log.old)).log }
{
    ReplicaAnswer::from(undo_swap::undo_swap(journal, adjacency, log))
}

#[unsafe(no_mangle)]
pub extern "C" fn replica_complete(
    journal: &[u8],
    adjacency: &mut [u8],
    log: &mut [u8],
    output: &mut [u8],
) -> ReplicaAnswer
    ensures value { result ≡ flat (complete_numbers (complete_answer (loan_of journal.now adjacency.old log.old) (length output.old))) }
    ensures adjacency_after { adjacency.new ≡ (complete_after (loan_of journal.now adjacency.old log.old) (length output.old)).state.adjacency }
    ensures log_after { log.new ≡ (complete_after (loan_of journal.now adjacency.old log.old) (length output.old)).log }
    ensures output_after { output.new ≡ complete_output (loan_of journal.now adjacency.old log.old) output.old }
{
    ReplicaAnswer::from(complete::complete(journal, adjacency, log, output))
}

#[unsafe(no_mangle)]
pub extern "C" fn replica_complete_shuffled(
    journal: &[u8],
    adjacency: &mut [u8],
    log: &mut [u8],
    x: u32,
    output: &mut [u8],
) -> ReplicaAnswer
    ensures value { result ≡ flat (shuffle_numbers (shuffle_answer (loan_of journal.now adjacency.old log.old) x (length output.old))) }
    ensures adjacency_after { adjacency.new ≡ (shuffle_after (loan_of journal.now adjacency.old log.old) x (length output.old)).state.adjacency }
    ensures log_after { log.new ≡ (shuffle_after (loan_of journal.now adjacency.old log.old) x (length output.old)).log }
    ensures output_after { output.new ≡ shuffle_output (loan_of journal.now adjacency.old log.old) x output.old }
{
    ReplicaAnswer::from(complete_shuffled::complete_shuffled(journal, adjacency, log, x, output))
}

#[unsafe(no_mangle)]
pub extern "C" fn replica_edge_list(
    journal: &[u8],
    adjacency: &[u8],
    output: &mut [u8],
) -> ReplicaAnswer
    ensures value { result ≡ flat (written_numbers (list_answer (state_of journal.now adjacency.now) (length output.old))) }
    ensures output_after { output.new ≡ list_output (state_of journal.now adjacency.now) output.old }
{
    ReplicaAnswer::from(edge_list::edge_list(journal, adjacency, output))
}

#[unsafe(no_mangle)]
pub extern "C" fn replica_jdm_of_edges(
    edges: &[u8],
    total: usize,
    output: &mut [u8],
) -> ReplicaAnswer
    ensures value { result ≡ flat (written_numbers (survey_answer edges.now total (length output.old))) }
    ensures output_after { output.new ≡ survey_output (survey_answer edges.now total (length output.old)) edges.now total output.old }
{
    ReplicaAnswer::from(jdm_of_edges::jdm_of_edges(edges, total, output))
}

#[unsafe(no_mangle)]
pub extern "C" fn replica_graph6_write(
    edges: &[u8],
    total: usize,
    output: &mut [u8],
) -> ReplicaAnswer
    ensures value { result ≡ flat (written_numbers (write_answer edges.now total (length output.old))) }
    ensures output_after { output.new ≡ write_output (write_answer edges.now total (length output.old)) edges.now total output.old }
{
    ReplicaAnswer::from(graph6_write::graph6_write(edges, total, output))
}

#[unsafe(no_mangle)]
pub extern "C" fn replica_graph6_read(text: &[u8], output: &mut [u8]) -> ReplicaAnswer
    ensures value { result ≡ flat (read_numbers (read_answer text.now (length output.old))) }
    ensures output_after { output.new ≡ read_output (read_answer text.now (length output.old)) text.now output.old }
{
    ReplicaAnswer::from(graph6_read::graph6_read(text, output))
}

#[unsafe(no_mangle)]
pub extern "C" fn replica_figures(journal: &[u8], adjacency: &[u8]) -> ReplicaAnswer
    ensures { result ≡ flat (figures_numbers (figures_answer (state_of journal.now adjacency.now))) }
{
    ReplicaAnswer::from(figures::figures(journal, adjacency))
}
