// Numbers in bytes, most significant byte first, floats as their 64 bits. Any bytes have a reading, by `byte_at`: those
// past the end are 0. So nothing here gives an Option.

#![tactic(auto)]

ghost use Rattle.std.specs.Prelude.{◌≡◌, ◌<◌, drop};
ghost use Rattle.wire.specs.Wire.{byte_at, pair_of, quad_of, word_of, float_of};

use std::array;

// The byte at a place.
pub fn byte(s: &[u8], at: usize) -> u8
    ensures { result ≡ byte_at s.now at }
{
    s.get(at).copied().unwrap_or(0)
}

// The part of s from a place on.
pub fn from(s: &[u8], at: usize) -> &[u8]
    ensures { result.now ≡ drop at s.now }
{
    s.get(at..).unwrap_or(&[])
}

// The number in the first two bytes.
// No plainer: one fn makes the array for pair, quad and word. Its promise for N bytes wants a proof file of its own.
pub fn pair(s: &[u8]) -> usize
    ensures value { result ≡ pair_of s.now }
    ensures upper_bound { result < 65536 }
{
    usize::from(u16::from_be_bytes(array::from_fn(|i| byte(s, i))))
}

// The number in the first four bytes.
pub fn quad(s: &[u8]) -> u32
    ensures { result ≡ quad_of s.now }
{
    u32::from_be_bytes(array::from_fn(|i| byte(s, i)))
}

// The number in the first eight bytes, which are read at once where all are there: each float of a job or a case is one
// such number.
pub fn word(s: &[u8]) -> u64
    ensures { result ≡ word_of s.now }
{
    if let Some(whole) = s.first_chunk::<8>() {
        return u64::from_be_bytes(*whole);
    }
    u64::from_be_bytes(array::from_fn(|i| byte(s, i)))
}

// The float in the first eight bytes. Every NaN pattern is the NaN.
pub fn float(s: &[u8]) -> f64
    ensures { result ≡ float_of s.now }
{
    numbers::float_of(word(s))
}
