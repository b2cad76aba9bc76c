// Text in ASCII, written into a buffer that the caller lends: words, and numbers in decimal and in hexadecimal.
#![tactic(auto)]

ghost use Rattle.std.specs.Prelude.{ℕ, List, ◌≡◌, ◌∷◌, [], ◌++◌, ◌+◌, ◌-◌, ◌≤◌, ◌<◌, length};
ghost use Rattle.text.specs.Digits.{glyph as glyph_of, digits, digit_count, decimal, long_decimal, hexadecimal, decimal_digits, long_digits};
ghost use Rattle.text.specs.Lines.{word_line};
ghost use Rattle.lists.specs.Puts.{Put};

// A number that can be written in decimal, without leading zeros.
pub trait Decimal: Into<u64> {
    // How many digits it has at most, and which they are.
    ghost MOST: { ℕ };

    ghost decimal: { Self → List ℕ };

    ghost written: { (x : Self) (n : ℕ) → Self.converts x n → (1 ≤ MOST) × (decimal x ≡ digits 10 (digit_count (MOST - 1) n) n) };

    const MOST: usize;
}

impl Decimal for u32 {
    ghost MOST = { 10 };

    ghost decimal = { decimal };

    ghost written = { decimal_digits };

    const MOST: usize = 10;
}

impl Decimal for u64 {
    ghost MOST = { 20 };

    ghost decimal = { long_decimal };

    ghost written = { long_digits };

    const MOST: usize = 20;
}

// The code of a digit below 16.
fn glyph(d: u64) -> u8
    requires { d < 16 }
    ensures { result ≡ glyph_of d }
{
    if d < 10 { 48 + d as u8 } else { 87 + d as u8 }
}

// How many decimal digits a number has, of which at most so many are counted.
fn digit_count(n: u64, most: usize) -> usize
    requires { 1 ≤ most }
    ensures { result ≡ digit_count (most - 1) n }
{
    let mut rest = n;
    for k in 1..most {
        if rest < 10 {
            return k;
        }
        rest /= 10;
    }
    most
}

// Writes the last k digits of a number.
fn put_digits(out: &mut [u8], at: usize, base: u64, k: usize, n: u64) -> usize
    requires a_base { 1 < base }
    requires one_glyph_each { base ≤ 16 }
    requires room { at + k ≤ length out.old }
    ensures { Put k (digits base k n) at out.old out.new result }
{
    let mut rest = n;
    for i in (0..k).rev() {
        out[at + i] = glyph(rest % base);
        rest /= base;
    }
    at + k
}

// Writes a word.
pub fn put_word(out: &mut [u8], at: usize, word: &[u8]) -> usize
    requires { at + length word.now ≤ length out.old }
    ensures { Put (length word.now) word.now at out.old out.new result }
{
    let end = at + word.len();
    out[at..end].copy_from_slice(word);
    end
}

// Writes one byte.
pub fn put_byte(out: &mut [u8], at: usize, b: u8) -> usize
    requires { at + 1 ≤ length out.old }
    ensures { Put 1 (b ∷ []) at out.old out.new result }
{
    out[at] = b;
    at + 1
}

// Writes a number in decimal, without leading zeros.
pub fn put_decimal<N: Decimal>(out: &mut [u8], at: usize, n: N) -> usize
    requires { at + N.MOST ≤ length out.old }
    ensures { Put N.MOST (N.decimal n) at out.old out.new result }
{
    let value = n.into();
    let k = digit_count(value, N::MOST);
    put_digits(out, at, 10, k, value)
}

// Writes a number in hexadecimal, eight digits.
pub fn put_hexadecimal(out: &mut [u8], at: usize, n: u32) -> usize
    requires { at + 8 ≤ length out.old }
    ensures { Put 8 (hexadecimal n) at out.old out.new result }
{
    put_digits(out, at, 16, 8, n as u64)
}

// Writes a number and the byte after it.
pub fn put_number<N: Decimal>(out: &mut [u8], at: usize, n: N, end: u8) -> usize
    requires { at + (N.MOST + 1) ≤ length out.old }
    ensures { Put (N.MOST + 1) (N.decimal n ++ end ∷ []) at out.old out.new result }
{
    let next = put_decimal(out, at, n);
    put_byte(out, next, end)
}

// Writes a line of a word and a number.
pub fn put_line(out: &mut [u8], at: usize, word: &[u8], n: u32) -> usize
    requires { at + (length word.now + 11) ≤ length out.old }
    ensures { Put (length word.now + 11) (word_line word.now n) at out.old out.new result }
{
    let next = put_word(out, at, word);
    put_number(out, next, n, b'\n')
}
