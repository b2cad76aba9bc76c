// f64 to f32, on patterns and on floats: nearest, ties to even, subnormals, overflow to infinity; any NaN to 7fc00000.
ghost use Rattle.std.specs.Prelude.{◌≡◌, ◌+◌, ◌-◌, ◌*◌, ◌/◌, ◌^◌, ◌<◌, ◌≤◌, ◌⊎◌};
ghost use Rattle.std.specs.Float.Ieee.Nearest.{closest};
ghost use Rattle.bits.specs.Clauses.{field, exponent_for};
ghost use Rattle.bits.specs.Narrow.{narrowed, narrow_bits};

use crate::patterns::{bits_of_f64, f32_of};

// The sign of an f64, in its place in an f32.
fn sign_of(b: u64) -> u32
    ensures { result ≡ b / 2 ^ 63 * 2 ^ 31 }
{
    (b / 0x8000_0000_0000_0000) as u32 * 0x8000_0000
}

// The exponent of an f64: the power of two that its leading digit stands for.
fn exponent_of(b: u64) -> i64
    ensures { result ≡ exponent_for (field b) }
{
    (b % 0x8000_0000_0000_0000 / 0x10_0000_0000_0000) as i64 - 1023
}

// n / 2^places to the nearest whole number, a tie to the even one.
fn nearest_even(n: u64, places: u64) -> u64
    requires { (n < 2 ^ 63) × (0 < places) × (places < 63) }
    ensures { result ≡ closest n (2 ^ places) }
{
    let below_half = (1u64 << (places - 1)) - 1;
    let last_digit = (n >> places) % 2;
    (n + below_half + last_digit) >> places
}

// In the normal range of f32. A carry past the top digit moves the exponent up, and past the largest f32 to infinity.
fn narrow_normal(b: u64) -> u32
    requires { (1023 - 126 ≤ field b) × (field b < 1023 + 128) }
    ensures { result ≡ narrow_bits b }
{
    // the field counts from 1023 in an f64 and from 127 in an f32, and 29 digits drop
    let size = b % 0x8000_0000_0000_0000 - (1023 - 127) * 0x10_0000_0000_0000;
    sign_of(b) + nearest_even(size, 29) as u32
}

// Below the normal range: a whole number of 2^-149, so the lower the exponent, the more digits drop.
fn narrow_subnormal(b: u64, exponent: i64) -> u32
    requires { (1023 - 150 ≤ field b) × (field b < 1023 - 126) × (exponent ≡ exponent_for (field b)) }
    ensures { result ≡ narrow_bits b }
{
    let digits = 0x10_0000_0000_0000 + b % 0x10_0000_0000_0000;
    // the last digit stands for 2^(exponent - 52)
    let places = 52 - 149 - exponent;
    sign_of(b) + nearest_even(digits, places as u64) as u32
}

// Outside the normal range: what is below 2^-150 is zero, what is above the largest f32 is infinity.
fn narrow_outside(b: u64, exponent: i64) -> u32
    requires { ((field b < 1023 - 126) ⊎ (1023 + 128 ≤ field b)) × (exponent ≡ exponent_for (field b)) }
    ensures { result ≡ narrow_bits b }
{
    if -150 <= exponent && exponent < -126 {
        return narrow_subnormal(b, exponent);
    }
    if 0x7ff0_0000_0000_0000 < b % 0x8000_0000_0000_0000 {
        return 0x7fc0_0000;
    }
    if exponent < 0 {
        return sign_of(b);
    }
    sign_of(b) + 0x7f80_0000
}

// The pattern of the f32 nearest to the f64 of the pattern b.
pub fn narrow_bits(b: u64) -> u32
    ensures { result ≡ narrow_bits b }
{
    let exponent = exponent_of(b);
    if -126 <= exponent && exponent < 128 {
        return narrow_normal(b);
    }
    narrow_outside(b, exponent)
}

// The f32 nearest to x. A NaN gives a NaN.
pub fn narrow(x: f64) -> f32
    ensures { result ≡ narrowed x }
{
    f32_of(narrow_bits(bits_of_f64(x)))
}
