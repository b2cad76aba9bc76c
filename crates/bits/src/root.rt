// The square root of an f32, on bit patterns and on floats: the nearest one, as specs/Root.antt states it over whole numbers.
// All is arithmetic of whole numbers. Nothing is proved of how near the guess is; its check is the statement.
ghost use Rattle.std.specs.Prelude.{◌≡◌, ℕ, ◌+◌, ◌*◌, ◌^◌, ◌<◌, ◌≤◌};
ghost use Rattle.bits.specs.Root.{NearestRoot, finite_root, root_bits, root as rooted};
ghost use Rattle.bits.specs.Clauses.{Raised};

use crate::patterns::{bits_of_f32, f32_of};
use crate::table::entry;

// A guess at the root of m * 2^23. The table's entry for the first ten digits of m, four times and three more, is x: about the middle of
// what the entry stands for, in units of 2^13. Then comes one step of third order, Halley's, x (x * x + 3 m) / (3 x * x + m), with the
// square in m's units, and rounded.
fn first_guess(m: u64) -> u64
    requires { (0x80_0000 ≤ m) × (m ≤ 0x1ff_fffe) }
    ensures { result < 0x400_0000 }
{
    let x = 4 * entry(m / 0x8000) + 3;
    let square = 8 * x * x;
    let divisor = 3 * square + m;
    (x * (square + 3 * m) * 0x2000 + divisor / 2) / divisor
}

// The whole number nearest to n's root, from any guess: down while it is above, then up while it is below.
fn corrected(n: u64, guess: u64) -> u64
    requires { (0 < n) × (n ≤ 0xffff_ff00_0000) × (guess < 0x400_0000) }
    ensures { (result * result < n + result) × (n ≤ result * result + result) }
{
    let mut r = guess;
    while n + r <= r * r {
        r -= 1;
    }
    while r * r + r < n {
        r += 1;
    }
    r
}

// The whole number nearest to the root of m * 2^23. The guess is nearly always right, so it is tried first.
fn whole_root(m: u64) -> u64
    requires { (0x80_0000 ≤ m) × (m ≤ 0x1ff_fffe) }
    ensures { (result * result < m * 0x80_0000 + result) × (m * 0x80_0000 ≤ result * result + result) }
{
    let n = m * 0x80_0000;
    let r = first_guess(m);
    let square = r * r;
    if square < n + r && n <= square + r {
        return r;
    }
    corrected(n, r)
}

// The pattern nearest to the root of a raised pattern's number. An odd field goes to the significand; half of an even one is the root's.
fn raised_root(x: u32) -> u32
    requires { x < 0xc000_0000 }
    ensures { (b : ℕ) → Raised b x → NearestRoot b result }
{
    let significand = 0x80_0000 + x % 0x80_0000;
    let m = significand << (x / 0x80_0000 % 2);
    x / 0x100_0000 * 0x80_0000 + whole_root(m as u64) as u32
}

// How far the digits of a subnormal pattern are shifted up to have a leading digit.
fn shift_of(b: u32) -> u32
    requires { (0 < b) × (b < 0x80_0000) }
    ensures { (result ≤ 23) × (0x80_0000 ≤ b * 2 ^ result) × (b * 2 ^ result < 0x100_0000) }
{
    u32::leading_zeros(b) - 8
}

// A subnormal pattern, raised: its digits shifted up to their leading digit, and its field down by as much.
fn raised_low(b: u32) -> u32
    requires { (0 < b) × (b < 0x80_0000) }
    ensures { (result < 0xc000_0000) × Raised b result }
{
    let shift = shift_of(b);
    (125 - shift) * 0x80_0000 + (b << shift)
}

// The root of a finite pattern at or above +0. A normal one is raised by adding 125 to its field.
fn finite_root(b: u32) -> u32
    requires { b < 0x7f80_0000 }
    ensures { result ≡ finite_root b }
{
    let mut x = b + 0x3e80_0000;
    if b < 0x80_0000 {
        if b == 0 {
            return 0;
        }
        x = raised_low(b);
    }
    raised_root(x)
}

// The root of any pattern: the nearest pattern, and 7fc00000 for what is below zero or no number.
pub fn root_bits(b: u32) -> u32
    ensures { result ≡ root_bits b }
{
    if b < 0x7f80_0000 {
        return finite_root(b);
    }
    if b == 0x7f80_0000 {
        return 0x7f80_0000;
    }
    if b == 0x8000_0000 {
        return 0x8000_0000;
    }
    0x7fc0_0000
}

// The root of any float.
pub fn root(x: f32) -> f32
    ensures { result ≡ rooted x }
{
    f32_of(root_bits(bits_of_f32(x)))
}
