// 01's number routines: finite test and absolute value; and a float and its 64 bits. Any input gets an answer, and no
// caller owes anything.

#![tactic(auto)]

ghost use Rattle.std.specs.Prelude.{◌≡◌};
ghost use Rattle.std.specs.Float.{binary64};
ghost use Rattle.std.specs.Float.Ieee.{to_bits, of_bits};
ghost use Rattle.std.specs.Float.Ieee.Scale.{finite};
ghost use Rattle.numbers.specs.Numbers.{both_finite, abs_of};

use std::num;

// Whether the float with the 64 bits w is neither a NaN nor an infinity, by its exponent bits: these are all ones in a
// NaN and in an infinity, and in no other float.
pub fn finite_bits(w: u64) -> bool
    ensures { result ≡ finite (of_bits binary64 w) }
{
    w % 0x8000_0000_0000_0000 / 0x10_0000_0000_0000 < 0x7ff
}

// Whether x is neither a NaN nor an infinity. A NaN, which alone differs from itself, has no bits for `f64::to_bits`.
// Compiled, that comparison is the one operation on floats (docs/DECISIONS.md, "Numbers and vectors").
pub fn is_finite(x: f64) -> bool
    ensures { result ≡ finite x }
{
    x == x && finite_bits(f64::to_bits(x))
}

// Whether neither x nor y is a NaN or an infinity.
pub fn both_finite(x: f64, y: f64) -> bool
    ensures { result ≡ both_finite x y }
{
    is_finite(x) & is_finite(y)
}

// x with its sign bit cleared. The library's `f64::abs` compares twice with 0, and a loop of it took a ninth longer.
pub fn abs(x: f64) -> f64
    ensures { result ≡ abs_of x }
{
    if x == x {
        f64::from_bits(f64::to_bits(x) % 0x8000_0000_0000_0000)
    } else {
        x
    }
}

// ---- a float and its 64 bits, at a NaN too: as files and printed lines write one

// The float with the 64 bits w. Every NaN pattern gives the NaN.
pub fn float_of(w: u64) -> f64
    ensures { result ≡ of_bits binary64 w }
{
    num::f64_from_bits_with_nan(w)
}

// The 64 bits of x. The NaN gives 7FF8000000000000.
pub fn bits_of(x: f64) -> u64
    ensures { result ≡ to_bits binary64 x }
{
    num::f64_to_bits_with_nan(x)
}
