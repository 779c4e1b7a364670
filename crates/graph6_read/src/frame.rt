// What the first bytes of a text say, and whether its bytes and length are right.
ghost use Rattle.std.specs.Prelude.{◌≡◌, ◌-◌, ◌≤◌, ◌<◌, length, get_or};
ghost use Rattle.finite.specs.Range.{all_to};
ghost use Rattle.graph6.specs.Format.{offset, most_byte, is_long, size_length, long_size, size_of, up_to, too_large, framed};

use graph6::{MAX_BYTE, MAX_SHORT, PLUS, body_length};
use layout::MAX_VERTICES;

// The byte at place i, and 0 behind the end.
fn byte_at(text: &[u8], i: usize) -> u8
    ensures { result ≡ get_or text.now i 0 }
{
    text.get(i).copied().unwrap_or(0)
}

// The six bits of a byte.
pub fn six_of(x: u8) -> u8
    ensures { result ≡ x - offset }
{
    x.saturating_sub(PLUS)
}

// The byte is one of 63, .., m.
fn up_to(m: u8, x: u8) -> bool
    ensures { result ≡ up_to m x }
{
    (PLUS <= x) & (x <= m)
}

fn is_long(text: &[u8]) -> bool
    ensures { result ≡ is_long text.now }
{
    byte_at(text, 0) == MAX_BYTE
}

// How many bytes say the size.
pub fn size_length(text: &[u8]) -> usize
    ensures { (result ≡ size_length text.now) × (result ≤ 4) }
{
    if is_long(text) {
        return 4;
    }
    1
}

// The size in three bytes.
fn long_size(text: &[u8]) -> usize
    ensures { (result ≡ long_size text.now) × (result < 1048576) }
{
    let high = usize::from(six_of(byte_at(text, 1)));
    let middle = usize::from(six_of(byte_at(text, 2)));
    let low = usize::from(six_of(byte_at(text, 3)));
    high * 4096 + middle * 64 + low
}

// The size that the text says.
pub fn size_of(text: &[u8]) -> usize
    ensures { (result ≡ size_of text.now) × (result < 1048576) }
{
    if is_long(text) {
        return long_size(text);
    }
    usize::from(six_of(byte_at(text, 0)))
}

// A size above 200, judged on the first two or four bytes.
pub fn too_large(text: &[u8]) -> bool
    ensures { result ≡ too_large text.now }
{
    let x = byte_at(text, 1);
    let y = byte_at(text, 2);
    let z = byte_at(text, 3);
    let above = MAX_VERTICES < long_size(text);
    is_long(text)
        & ((x == MAX_BYTE) | (up_to(125, x) & up_to(MAX_BYTE, y) & up_to(MAX_BYTE, z) & above))
}

// Every byte is one of 63 to 126. A flag and no early exit, so that the loop is a vector loop.
fn all_printed(text: &[u8]) -> bool
    ensures { result ≡ all_to (length text.now) (λ i. up_to most_byte (get_or text.now i 0)) }
{
    let mut ok = true;
    for &x in text {
        ok &= up_to(MAX_BYTE, x);
    }
    ok
}

// The bytes, the size and the length are right.
pub fn framed(text: &[u8]) -> bool
    ensures { result ≡ framed text.now }
{
    let n = size_of(text);
    if MAX_VERTICES < n {
        return false;
    }
    let long = is_long(text);
    let length = size_length(text) + body_length(n);
    all_printed(text) & (n <= MAX_VERTICES) & (!long | (MAX_SHORT < n)) & (text.len() == length)
}
