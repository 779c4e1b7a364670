// McKay's graph6: its constants, and how many bits and bytes the upper triangle has (document 02, P5).
#![tactic(auto)]

ghost use Rattle.std.specs.Prelude.{◌≡◌, ◌≤◌};
ghost use Rattle.layout.specs.Layout.{most_vertices};
ghost use Rattle.graph6.specs.Format.{column_start, body_length, most_bits, body_most};

use layout::MAX_VERTICES;

pub mod column_starts;

// What is added to six bits to make them a byte.
pub const PLUS: u8 = 63;

// The byte of six ones, with which a long size begins.
pub const MAX_BYTE: u8 = 126;

// The largest size of one byte.
pub const MAX_SHORT: usize = 62;

// The most bits of a triangle, and the bytes that they take.
const MAX_BITS: usize = MAX_VERTICES * (MAX_VERTICES - 1) / 2;

pub const MAX_BODY_BYTES: usize = (MAX_BITS + 5) / 6;

// How many bits the columns of n vertices have.
pub fn bit_count(n: usize) -> usize
    requires { n ≤ most_vertices }
    ensures { (result ≡ column_start n) × (result ≤ most_bits) }
{
    if n == 0 {
        return 0;
    }
    n * (n - 1) / 2
}

// And how many bytes they take.
pub fn body_length(n: usize) -> usize
    requires { n ≤ most_vertices }
    ensures { (result ≡ body_length n) × (result ≤ body_most) }
{
    (bit_count(n) + 5) / 6
}
