// Bit patterns as floats and back. No NaN's bits are read or made.
ghost use Rattle.std.specs.Prelude.{◌≡◌, from_bits, to_bits};
ghost use Rattle.std.specs.Float.{binary32, binary64};

use std::num::{
    f32_from_bits_with_nan, f32_to_bits_with_nan, f64_from_bits_with_nan, f64_to_bits_with_nan,
};

// The f32 of a pattern. The patterns above an infinity's, the sign aside, are the NaNs'.
pub fn f32_of(pattern: u32) -> f32
    ensures { result ≡ from_bits binary32 pattern }
{
    f32_from_bits_with_nan(pattern)
}

// The f64 of a pattern.
pub fn f64_of(pattern: u64) -> f64
    ensures { result ≡ from_bits binary64 pattern }
{
    f64_from_bits_with_nan(pattern)
}

// The pattern of an f32, 7fc00000 for a NaN.
pub fn bits_of_f32(x: f32) -> u32
    ensures { result ≡ to_bits binary32 x }
{
    f32_to_bits_with_nan(x)
}

// The pattern of an f64, 7ff8000000000000 for a NaN.
pub fn bits_of_f64(x: f64) -> u64
    ensures { result ≡ to_bits binary64 x }
{
    f64_to_bits_with_nan(x)
}
