// Edge lists: when one is refused, and the edges of one row written to one.
#![tactic(auto)]

ghost use Rattle.std.specs.Prelude.{◌≡◌, ℕ, [], ◌∷◌, ◌+◌, ◌*◌, ◌≤◌, ◌<◌, length, get_or};
ghost use Rattle.std.proofs.lemmas.List.Edits.{sets};
ghost use Rattle.finite.specs.Range.{IsFound};
ghost use Rattle.layout.specs.Layout.{most_vertices};
ghost use Rattle.edge_lists.specs.EdgeList.{listed, end_v, end_w, rises, good_edge, first_bad_edge, list_verdict, edge_bytes, row_bytes};

use answer::{Cause, Refusal, refuse};
use finite::first_passing;
use layout::MAX_VERTICES;

// The edges of a list, its two ends each.
pub fn edge_pairs(edges: &[u8]) -> &[[u8; 2]]
    ensures count { length result.now ≡ listed edges.now }
    ensures ends { (i : ℕ) → i < listed edges.now → get_or result.now i [] ≡ end_v edges.now i ∷ end_w edges.now i ∷ [] }
{
    let (pairs, _) = edges.as_chunks::<2>();
    pairs
}

// Edge i is above the edge before it, by v and then w. By its index, since it stands beside the one before it.
fn rises(edges: &[u8], i: usize) -> bool
    requires { 2 * i + 2 ≤ length edges.now }
    ensures { result ≡ rises edges.now i }
{
    if i == 0 {
        return true;
    }
    let before = i - 1;
    let v = edges[2 * before];
    let w = edges[2 * before + 1];
    let x = edges[2 * i];
    let y = edges[2 * i + 1];
    (v < x) | ((v == x) & (w < y))
}

fn good_edge(edges: &[u8], total: usize, i: usize) -> bool
    requires { 2 * i + 2 ≤ length edges.now }
    ensures { result ≡ good_edge edges.now total i }
{
    let v = edges[2 * i];
    let w = edges[2 * i + 1];
    (v < w) & (usize::from(w) < total) & rises(edges, i)
}

// The first edge that is not good.
fn first_bad_edge(edges: &[u8], total: usize) -> Option<usize>
    ensures { IsFound (listed edges.now) (first_bad_edge edges.now total) result }
{
    first_passing(0, edges.len() / 2, |i| !good_edge(edges, total, i))
}

// The checks 19: the total, the length, the edges.
pub fn list_check(edges: &[u8], total: usize) -> Result<(), Refusal>
    ensures { result ≡ list_verdict edges.now total }
{
    if MAX_VERTICES < total {
        return Err(refuse(Cause::BadEdgeList, 0, 0));
    }
    if edges.len() % 2 != 0 {
        return Err(refuse(Cause::BadEdgeList, edges.len() / 2, 0));
    }
    if let Some(bad) = first_bad_edge(edges, total) {
        return Err(refuse(Cause::BadEdgeList, bad, 0));
    }
    Ok(())
}

// The bytes of the edge v – w, if the row of v has it, written at place at. The place behind them.
fn put_edge(row: &[u8], v: usize, w: usize, output: &mut [u8], at: usize) -> usize
    requires { (v < w) × (w < length row.now) × (w < most_vertices) × (at + length (edge_bytes (λ x. get_or row.now x 0) v w) ≤ length output.old) }
    ensures value { (result ≡ at + length (edge_bytes (λ x. get_or row.now x 0) v w)) × (result ≤ at + 2) }
    ensures output_after { output.new ≡ sets output.old at (edge_bytes (λ x. get_or row.now x 0) v w) }
{
    if row[w] == 1 {
        output[at] = v as u8;
        output[at + 1] = w as u8;
        return at + 2;
    }
    at
}

// The edges of v to higher vertices, by the matrix's row of v, written from place at on. The place behind them.
pub fn put_row(row: &[u8], v: usize, output: &mut [u8], at: usize) -> usize
    requires { (v < length row.now) × (length row.now ≤ most_vertices) × (at + length (row_bytes (length row.now) (λ x. get_or row.now x 0) v) ≤ length output.old) }
    ensures value { result ≡ at + length (row_bytes (length row.now) (λ x. get_or row.now x 0) v) }
    ensures output_after { output.new ≡ sets output.old at (row_bytes (length row.now) (λ x. get_or row.now x 0) v) }
{
    let mut a = at;
    for w in v + 1..row.len() {
        a = put_edge(row, v, w, output, a);
    }
    a
}
