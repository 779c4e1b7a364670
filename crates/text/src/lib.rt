// The program's lines, written into a lent output from a place on. Each answers the place behind what it wrote. They are no `Display`: with no heap
// `write!` would need a writer with this same place, and would test for room that the contracts ask for.
#![tactic(auto)]

ghost use Rattle.std.specs.Prelude.{◌≡◌, ◌+◌, ◌≤◌, length};
ghost use Rattle.std.proofs.lemmas.List.Edits.{sets};
ghost use Rattle.text.specs.Text.{decimal_most, decimal, field, refused_line, head_line, edge_line, edge_lines, head_most};

use answer::{Refusal, number_of};
use edge_lists::edge_pairs;
use slices::copy_in;

// The most digits of a number.
pub const MAX_DECIMAL_BYTES: usize = 20;

// The most bytes of a refusal or a first line: 25 in words and three numbers.
pub const MAX_HEAD_BYTES: usize = 25 + 3 * MAX_DECIMAL_BYTES;

// The most bytes of the line of an edge: two numbers of three digits, and a byte behind each.
pub const MAX_EDGE_BYTES: usize = 2 * (3 + 1);

fn put_word(out: &mut [u8], at: usize, word: &[u8]) -> usize
    requires { at + length word.now ≤ length out.old }
    ensures value { result ≡ at + length word.now }
    ensures out_after { out.new ≡ sets out.old at word.now }
{
    copy_in(out, at, word);
    at + word.len()
}

fn put_decimal(out: &mut [u8], at: usize, n: usize) -> usize
    requires { at + length (decimal n) ≤ length out.old }
    ensures value { result ≡ at + length (decimal n) }
    ensures out_after { out.new ≡ sets out.old at (decimal n) }
{
    let mut digits = [0u8; MAX_DECIMAL_BYTES];
    let k = io::decimal(n as u64, &mut digits);
    put_word(out, at, &digits[..k])
}

// A word and the number behind it.
fn put_field(out: &mut [u8], at: usize, word: &[u8], n: usize) -> usize
    requires { at + length (field word.now n) ≤ length out.old }
    ensures value { (result ≡ at + length (field word.now n)) × (result ≤ at + length word.now + decimal_most) }
    ensures out_after { out.new ≡ sets out.old at (field word.now n) }
{
    let a = put_word(out, at, word);
    put_decimal(out, a, n)
}

pub fn put_refused(out: &mut [u8], at: usize, r: Refusal) -> usize
    requires { at + head_most ≤ length out.old }
    ensures value { result ≡ at + length (refused_line r) }
    ensures out_after { out.new ≡ sets out.old at (refused_line r) }
{
    let cause = r.cause;
    let number = put_field(out, at, b"refused ", number_of(cause));
    let first = put_field(out, number, b" ", r.first);
    let second = put_field(out, first, b" ", r.second);
    put_word(out, second, b"\n")
}

// The first line: N, the edges laid and the switches made.
pub fn put_head(out: &mut [u8], at: usize, n: usize, edges: usize, switches: usize) -> usize
    requires { at + head_most ≤ length out.old }
    ensures value { result ≡ at + length (head_line n edges switches) }
    ensures out_after { out.new ≡ sets out.old at (head_line n edges switches) }
{
    let a = put_field(out, at, b"boards ", n);
    let b = put_field(out, a, b" links ", edges);
    let c = put_field(out, b, b" switches ", switches);
    put_word(out, c, b"\n")
}

fn put_edge(out: &mut [u8], at: usize, v: usize, w: usize) -> usize
    requires { at + length (edge_line v w) ≤ length out.old }
    ensures value { result ≡ at + length (edge_line v w) }
    ensures out_after { out.new ≡ sets out.old at (edge_line v w) }
{
    let a = put_decimal(out, at, v);
    let b = put_field(out, a, b" ", w);
    put_word(out, b, b"\n")
}

// A line for each edge of a list.
pub fn put_edges(out: &mut [u8], at: usize, edges: &[u8]) -> usize
    requires { at + length (edge_lines edges.now) ≤ length out.old }
    ensures value { result ≡ at + length (edge_lines edges.now) }
    ensures out_after { out.new ≡ sets out.old at (edge_lines edges.now) }
{
    let mut a = at;
    for &[v, w] in edge_pairs(edges) {
        a = put_edge(out, a, usize::from(v), usize::from(w));
    }
    a
}
