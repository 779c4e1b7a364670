// The text of a completed state, in the form asked for: a first line and a line for each edge, or one line of graph6.
#![tactic(auto)]

ghost use Rattle.std.specs.Prelude.{◌≡◌, ◌++◌, ◌+◌, ◌*◌, ◌/◌, ◌≤◌, length, take};
ghost use Rattle.std.proofs.lemmas.List.Edits.{sets};
ghost use Rattle.answer.specs.Refusals.{Go};
ghost use Rattle.state.specs.State.{state_of};
ghost use Rattle.state.specs.Valid.{ValidLaid};
ghost use Rattle.state.specs.Laid.{vertex_count};
ghost use Rattle.completion.specs.Complete.{most_edges};
ghost use Rattle.edge_lists.specs.EdgeList.{list_verdict};
ghost use Rattle.graph6_write.specs.Write.{write_text};
ghost use Rattle.text.specs.Text.{newline, head_line, edge_lines, head_most};
ghost use Rattle.state_text.specs.StateText.{list_text, state_list, state_text, text_most};

use answer::WrittenAnswer;
use layout::MAX_VERTICES;
use options::Form;
use slices::put;
use table::degree::MAX_DEGREE;
use text::{MAX_EDGE_BYTES, MAX_HEAD_BYTES, put_edges, put_head, put_refused};

// The most bytes of an edge list: 2 for each edge, and each edge has two ends.
pub const MAX_LIST_BYTES: usize = MAX_VERTICES * MAX_DEGREE;

// The most bytes of the text: the first line, and a line for each edge.
pub const MAX_TEXT_BYTES: usize = MAX_HEAD_BYTES + MAX_EDGE_BYTES * (MAX_LIST_BYTES / 2);

// The first line and a line for each edge of a list.
fn put_lines(output: &mut [u8], n: usize, switches: usize, edges: &[u8]) -> usize
    requires { head_most + length (edge_lines edges.now) ≤ length output.old }
    ensures value { result ≡ length (head_line n (length edges.now / 2) switches ++ edge_lines edges.now) }
    ensures output_after { output.new ≡ sets output.old 0 (head_line n (length edges.now / 2) switches ++ edge_lines edges.now) }
{
    let at = put_head(output, 0, n, edges.len() / 2, switches);
    put_edges(output, at, edges)
}

// One line with the graph6 text of a list on n vertices.
fn put_graph6(output: &mut [u8], n: usize, edges: &[u8]) -> usize
    requires { (list_verdict edges.now n ≡ Go) × (text_most ≤ length output.old) }
    ensures value { result ≡ length (write_text edges.now n ++ newline) }
    ensures output_after { output.new ≡ sets output.old 0 (write_text edges.now n ++ newline) }
{
    let answer = graph6_write::graph6_write(edges, n, output);
    match answer {
        WrittenAnswer::Refused(r) => put_refused(output, 0, r),
        WrittenAnswer::Written(len) => {
            put(output, len, b'\n');
            len + 1
        }
    }
}

// The list in the form asked for.
fn put_list_text(output: &mut [u8], form: Form, n: usize, switches: usize, edges: &[u8]) -> usize
    requires { (list_verdict edges.now n ≡ Go) × (text_most ≤ length output.old) × (head_most + length (edge_lines edges.now) ≤ length output.old) }
    ensures value { result ≡ length (list_text form n switches edges.now) }
    ensures output_after { output.new ≡ sets output.old 0 (list_text form n switches edges.now) }
{
    match form {
        Form::Lines => put_lines(output, n, switches, edges),
        Form::Graph6 => put_graph6(output, n, edges),
    }
}

// Lists a completed state into an output with room for every edge, so that listing is not refused. The list's length.
fn put_state_list(journal: &[u8], adjacency: &[u8], list: &mut [u8]) -> usize
    requires { ValidLaid (state_of journal.now adjacency.now) × (2 * most_edges ≤ length list.old) }
    ensures list_after { take result list.new ≡ state_list (state_of journal.now adjacency.now) }
    ensures upper_bound { result ≤ length list.new }
{
    let answer = edge_list::edge_list(journal, adjacency, list);
    match answer {
        WrittenAnswer::Refused(_) => 0,
        WrittenAnswer::Written(len) => len,
    }
}

// A completed state of n vertices.
pub fn put_state_text(
    journal: &[u8],
    adjacency: &[u8],
    form: Form,
    n: usize,
    switches: usize,
    output: &mut [u8],
) -> usize
    requires { ValidLaid (state_of journal.now adjacency.now) × (n ≡ vertex_count (state_of journal.now adjacency.now)) × (text_most ≤ length output.old) }
    ensures value { result ≡ length (state_text form n switches (state_of journal.now adjacency.now)) }
    ensures output_after { output.new ≡ sets output.old 0 (state_text form n switches (state_of journal.now adjacency.now)) }
{
    let mut list = [0u8; MAX_LIST_BYTES];
    let len = put_state_list(journal, adjacency, &mut list);
    put_list_text(output, form, n, switches, &list[..len])
}
