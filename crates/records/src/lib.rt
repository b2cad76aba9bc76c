// A file's records, each a 4-byte payload length, a 2-byte kind and the payload: the numbers and floats in their bytes, the lowest byte first.
#![tactic(auto)]

ghost use Rattle.std.specs.Prelude.{◌≡◌, ◌+◌, ◌<◌, ◌≤◌, length};
ghost use Rattle.lists.specs.Puts.{Put};
ghost use Rattle.records.specs.Words.{two_bytes, four_bytes, float_at, as_two, as_four};
ghost use Rattle.records.specs.Records.{head_bytes};

// How long a record's head is: the payload's length and the kind.
pub const HEAD_LENGTH: usize = 6;

// ---- reading

// The number of two bytes.
pub fn two_bytes(bytes: &[u8], at: usize) -> u32
    requires { at + 2 ≤ length bytes.now }
    ensures { (result ≡ two_bytes bytes.now at) × (result < 65536) }
{
    u32::from(u16::from_le_bytes([bytes[at], bytes[at + 1]]))
}

// The number of four bytes.
pub fn four_bytes(bytes: &[u8], at: usize) -> u32
    requires { at + 4 ≤ length bytes.now }
    ensures { result ≡ four_bytes bytes.now at }
{
    u32::from_le_bytes([bytes[at], bytes[at + 1], bytes[at + 2], bytes[at + 3]])
}

// The f32 of four bytes.
pub fn float_at(bytes: &[u8], at: usize) -> f32
    requires { at + 4 ≤ length bytes.now }
    ensures { result ≡ float_at bytes.now at }
{
    bits::patterns::f32_of(four_bytes(bytes, at))
}

// ---- writing

// Writes a number as two bytes.
pub fn put_two(out: &mut [u8], at: usize, n: u32) -> usize
    requires small { n < 65536 }
    requires room { at + 2 ≤ length out.old }
    ensures { Put 2 (as_two n) at out.old out.new result }
{
    out[at..at + 2].copy_from_slice(&(n as u16).to_le_bytes());
    at + 2
}

// Writes a number as four bytes.
pub fn put_four(out: &mut [u8], at: usize, n: u32) -> usize
    requires { at + 4 ≤ length out.old }
    ensures { Put 4 (as_four n) at out.old out.new result }
{
    out[at..at + 4].copy_from_slice(&n.to_le_bytes());
    at + 4
}

// Writes a record's head: the payload's length and the kind.
pub fn put_head(out: &mut [u8], at: usize, size: u32, kind: u32) -> usize
    requires small { kind < 65536 }
    requires room { at + 6 ≤ length out.old }
    ensures { Put 6 (head_bytes size kind) at out.old out.new result }
{
    let after_size = put_four(out, at, size);
    put_two(out, after_size, kind)
}
