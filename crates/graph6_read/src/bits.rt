// The bits of a body, one byte each.
ghost use Rattle.std.specs.Prelude.{◌≡◌, ◌+◌, ◌*◌, ◌≤◌, ◌<◌, length, get_or, drop};
ghost use Rattle.std.proofs.lemmas.List.Edits.{sets};
ghost use Rattle.finite.specs.Range.{sum_to};
ghost use Rattle.slices.specs.Slices.{all_zero};
ghost use Rattle.layout.specs.Layout.{most_vertices};
ghost use Rattle.graph6.specs.Format.{column_start, bits_of, unpacked};
ghost use Rattle.graph6_read.specs.Inner.Bits.{bits_most};

use crate::frame::six_of;
use graph6::{MAX_BODY_BYTES, bit_count};
use slices::{all_zero, byte_sum};

// Room for six bits of each byte.
pub const MAX_BODY_BITS: usize = 6 * MAX_BODY_BYTES;

// The six bits of x, from place at on.
fn put_bits(bits: &mut [u8; MAX_BODY_BITS], at: usize, x: u8)
    requires { at + 6 ≤ bits_most }
    ensures { bits.new ≡ sets bits.old at (bits_of x) }
{
    bits[at] = x / 32 % 2;
    bits[at + 1] = x / 16 % 2;
    bits[at + 2] = x / 8 % 2;
    bits[at + 3] = x / 4 % 2;
    bits[at + 4] = x / 2 % 2;
    bits[at + 5] = x % 2;
}

// The bits of a body, at the start of the array.
pub fn unpack(body: &[u8], bits: &mut [u8; MAX_BODY_BITS])
    requires { 6 * length body.now ≤ bits_most }
    ensures { bits.new ≡ sets bits.old 0 (unpacked body.now) }
{
    for (p, &x) in body.iter().enumerate() {
        put_bits(bits, 6 * p, six_of(x));
    }
}

// The bits behind the columns of n vertices are 0.
pub fn zero_behind(bits: &[u8], n: usize) -> bool
    requires { (n ≤ most_vertices) × (length bits.now ≡ bits_most) }
    ensures { result ≡ all_zero (drop (column_start n) bits.now) }
{
    let used = bit_count(n);
    all_zero(&bits[used..])
}

// The bytes of the list of the columns' edges: 2 for each bit that is 1.
pub fn list_length(bits: &[u8], n: usize) -> usize
    requires { (n ≤ most_vertices) × (length bits.now ≡ bits_most) × (sum_to (column_start n) (λ q. get_or bits.now q 0) < 65536) }
    ensures { result ≡ 2 * sum_to (column_start n) (λ q. get_or bits.now q 0) }
{
    let used = bit_count(n);
    2 * byte_sum(&bits[..used])
}
