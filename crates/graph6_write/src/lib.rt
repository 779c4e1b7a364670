// Writing an edge list and its total of vertices as graph6 (document 02, P5).
#![tactic(auto)]

ghost use Rattle.std.specs.Prelude.{◌≡◌, ◌+◌, ◌/◌, ◌%◌, ◌≤◌, ◌<◌, length, get_or};
ghost use Rattle.std.proofs.lemmas.List.Edits.{sets};
ghost use Rattle.answer.specs.Refusals.{Go};
ghost use Rattle.layout.specs.Layout.{most_vertices};
ghost use Rattle.edge_lists.specs.EdgeList.{listed, list_verdict};
ghost use Rattle.graph6.specs.Format.{offset, body_most, size_bytes};
ghost use Rattle.graph6_write.specs.Write.{write_listed, write_answer, write_output};
ghost use Rattle.graph6_write.specs.Inner.Body.{weight_of, add_bit, body_to};

use answer::{Cause, WrittenAnswer, refuse};
use edge_lists::{edge_pairs, list_check};
use graph6::column_starts::COLUMN_STARTS;
use graph6::{MAX_BODY_BYTES, MAX_BYTE, MAX_SHORT, PLUS, body_length};
use slices::copy_in;

// What the bit at each of six places is worth in its byte.
const WEIGHTS: [u8; 6] = [32, 16, 8, 4, 2, 1];

// How many bytes the size of n vertices is.
fn size_length(n: usize) -> usize
    ensures { (result ≡ length (size_bytes n)) × (result ≤ 4) }
{
    if MAX_SHORT < n {
        return 4;
    }
    1
}

// Six bits as a byte.
fn printed(x: usize) -> u8
    requires { x < 64 }
    ensures { result ≡ x + offset }
{
    x as u8 + PLUS
}

// The size of n vertices, at the start of the output.
fn put_size(output: &mut [u8], n: usize)
    requires { (n ≤ most_vertices) × (length (size_bytes n) ≤ length output.old) }
    ensures { output.new ≡ sets output.old 0 (size_bytes n) }
{
    if n <= MAX_SHORT {
        output[0] = printed(n);
        return;
    }
    output[0] = MAX_BYTE;
    output[1] = printed(n / 4096);
    output[2] = printed(n / 64 % 64);
    output[3] = printed(n % 64);
}

// Adds the bit at place q.
fn add_bit(body: &mut [u8; MAX_BODY_BYTES], q: usize)
    requires { (q / 6 < body_most) × (get_or body.old (q / 6) 0 + weight_of (q % 6) < 256) }
    ensures { body.new ≡ add_bit q body.old }
{
    body[q / 6] += WEIGHTS[q % 6];
}

// The body of a list on a total of vertices, which the contract alone uses: six zeros a byte, to which each edge adds its bit.
fn body_of(edges: &[u8], total: usize) -> [u8; MAX_BODY_BYTES]
    requires { list_verdict edges.now total ≡ Go }
    ensures { result ≡ body_to edges.now (listed edges.now) }
{
    let starts = COLUMN_STARTS;
    let mut body = [PLUS; MAX_BODY_BYTES];
    for &[v, w] in edge_pairs(edges) {
        let start = usize::from(starts[usize::from(w)]);
        add_bit(&mut body, start + usize::from(v));
    }
    body
}

// Of a list that passes the checks 19: the check 18, then the text.
fn write_listed(edges: &[u8], total: usize, output: &mut [u8]) -> WrittenAnswer
    requires { list_verdict edges.now total ≡ Go }
    ensures value { result ≡ write_listed edges.now total (length output.old) }
    ensures output_after { output.new ≡ write_output (write_listed edges.now total (length output.old)) edges.now total output.old }
{
    let head = size_length(total);
    let rest = body_length(total);
    if output.len() < head + rest {
        return WrittenAnswer::Refused(refuse(Cause::OutputTooShort, 0, 0));
    }
    let body = body_of(edges, total);
    put_size(output, total);
    copy_in(output, head, &body[..rest]);
    WrittenAnswer::Written(head + rest)
}

// Writes the text of the list and its total, or refuses and changes no byte.
pub fn graph6_write(edges: &[u8], total: usize, output: &mut [u8]) -> WrittenAnswer
    ensures value { result ≡ write_answer edges.now total (length output.old) }
    ensures output_after { output.new ≡ write_output (write_answer edges.now total (length output.old)) edges.now total output.old }
{
    match list_check(edges, total) {
        Err(r) => WrittenAnswer::Refused(r),
        Ok(()) => write_listed(edges, total, output),
    }
}
