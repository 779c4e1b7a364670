// Reading a graph6 text into an edge list and its total of vertices (document 02, P5).
#![tactic(auto)]

ghost use Rattle.std.specs.Prelude.{◌≡◌, true, length};
ghost use Rattle.graph6.specs.Format.{framed};
ghost use Rattle.graph6_read.specs.Read.{read_answer, read_output};
ghost use Rattle.graph6_read.specs.Inner.Bits.{bits_in, read_framed};

use crate::bits::{MAX_BODY_BITS, list_length, unpack, zero_behind};
use crate::frame::{framed, size_length, size_of, too_large};
use crate::rows::put_rows;
use answer::{Cause, ReadAnswer, refuse};

mod bits;
mod frame;
mod rows;

// The bits of a text with the right frame, and zeros behind them.
fn bits_of(text: &[u8]) -> [u8; MAX_BODY_BITS]
    requires { framed text.now ≡ true }
    ensures { result ≡ bits_in text.now }
{
    let head = size_length(text);
    let mut bits = [0u8; MAX_BODY_BITS];
    unpack(&text[head..], &mut bits);
    bits
}

// Of a text with the right frame: its padding, the check 18, then the list.
fn read_framed(text: &[u8], output: &mut [u8]) -> ReadAnswer
    requires { framed text.now ≡ true }
    ensures value { result ≡ read_framed text.now (length output.old) }
    ensures output_after { output.new ≡ read_output (read_framed text.now (length output.old)) text.now output.old }
{
    let n = size_of(text);
    let bits = bits_of(text);
    if !zero_behind(&bits, n) {
        return ReadAnswer::Refused(refuse(Cause::Graph6Text, 0, 0));
    }
    let length = list_length(&bits, n);
    if output.len() < length {
        return ReadAnswer::Refused(refuse(Cause::OutputTooShort, 0, 0));
    }
    put_rows(&bits, n, output);
    ReadAnswer::Read(length, n)
}

// Writes the list of the text's edges, or refuses and changes no byte.
pub fn graph6_read(text: &[u8], output: &mut [u8]) -> ReadAnswer
    ensures value { result ≡ read_answer text.now (length output.old) }
    ensures output_after { output.new ≡ read_output (read_answer text.now (length output.old)) text.now output.old }
{
    if too_large(text) {
        return ReadAnswer::Refused(refuse(Cause::Graph6Size, 0, 0));
    }
    if !framed(text) {
        return ReadAnswer::Refused(refuse(Cause::Graph6Text, 0, 0));
    }
    read_framed(text, output)
}
