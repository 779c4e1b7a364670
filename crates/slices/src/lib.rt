// Byte slices: their sum, their ones, all zero, equal, one byte stored, copied into another.
#![tactic(auto)]

ghost use Rattle.std.specs.Prelude.{◌≡◌, ℕ, ◌+◌, ◌≤◌, ◌<◌, length, get_or, replicate, set};
ghost use Rattle.std.proofs.lemmas.List.Edits.{sets};
ghost use Rattle.finite.specs.Range.{sum_to};
ghost use Rattle.slices.specs.Slices.{all_zero, equal_bytes};

// The sum of the bytes, where it is below 65,536: sums of 16 bits are vector sums of 8 at a time.
pub fn byte_sum(s: &[u8]) -> usize
    requires { sum_to (length s.now) (λ i. get_or s.now i 0) < 65536 }
    ensures { (result ≡ sum_to (length s.now) (λ i. get_or s.now i 0)) × (result < 65536) }
{
    let mut sum: u16 = 0;
    for x in s {
        sum += u16::from(*x);
    }
    usize::from(sum)
}

// How many of these bytes are 1, where each is 0 or 1. The sum fits in a byte: this is a vector loop of 16 at a time.
pub fn ones(s: &[u8]) -> usize
    requires { (length s.now ≤ 255) × ((i : ℕ) → i < length s.now → get_or s.now i 0 ≤ 1) }
    ensures { (result ≡ sum_to (length s.now) (λ i. get_or s.now i 0)) × (result ≤ length s.now) }
{
    let mut sum: u8 = 0;
    for x in s {
        sum += x;
    }
    usize::from(sum)
}

// Every byte is 0: the largest is. No early exit, and one operation a vector: a flag takes two.
pub fn all_zero(s: &[u8]) -> bool
    ensures { result ≡ all_zero s.now }
{
    let mut most = 0;
    for &x in s {
        if most < x {
            most = x;
        }
    }
    most == 0
}

// The two have the same length and bytes.
pub fn same_bytes(a: &[u8], b: &[u8]) -> bool
    ensures { result ≡ equal_bytes a.now b.now }
{
    a == b
}

// The byte b at place at, if there is such a place.
pub fn put(out: &mut [u8], at: usize, b: u8)
    ensures { out.new ≡ set out.old at b }
{
    if at < out.len() {
        out[at] = b;
    }
}

// The bytes of src in dst, from place at on. Byte by byte: with `copy_from_slice` an archive for C needs `memmove` from outside.
pub fn copy_in(dst: &mut [u8], at: usize, src: &[u8])
    requires { at + length src.now ≤ length dst.old }
    ensures { dst.new ≡ sets dst.old at src.now }
{
    for (i, &x) in src.iter().enumerate() {
        dst[at + i] = x;
    }
}

// Every byte becomes 0.
pub fn clear_bytes(s: &mut [u8])
    ensures { s.new ≡ replicate (length s.old) 0 }
{
    s.fill(0);
}
