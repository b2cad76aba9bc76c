// Runs root, narrowing and order on stored bit patterns with known answers, and says how many came out right.
// A record is 24 bytes: its kind, a verdict, six zeros, and two numbers of eight bytes, the lowest byte first.
//   kind 1: an f32 and its root; kind 2: an f64 and the f32 nearest to it; kind 3: two f64, verdict 1 where the first comes at or before the second
#![tactic(auto)]

ghost use Rattle.std.specs.Prelude.{◌≤◌, ◌<◌};

use std::io;
use std::io::Read;

// How many records of each kind came out right, and how many of any kind did not.
#[derive(Clone, Copy)]
struct Tally {
    roots: u64,
    narrowed: u64,
    ordered: u64,
    wrong: u64,
}

// The number of eight bytes.
fn long_number(b: &[u8; 24], at: usize) -> u64
    requires { at ≤ 16 }
{
    records::four_bytes(b, at) as u64 + records::four_bytes(b, at + 4) as u64 * 0x1_0000_0000
}

// Whether a record's answer is ours.
fn is_right(b: &[u8; 24]) -> bool {
    let first = long_number(b, 8);
    let second = long_number(b, 16);
    let kind = b[0];
    match kind {
        1 => bits::root::root_bits((first % 0x1_0000_0000) as u32) as u64 == second,
        2 => bits::narrow::narrow_bits(first) as u64 == second,
        3 => (bits::order::order_bits(first) <= bits::order::order_bits(second)) == (b[1] == 1),
        _ => false,
    }
}

// One more, up to a million.
fn more(n: u64) -> u64 {
    if n < 1_000_000 { n + 1 } else { n }
}

// The tally with one more record in it.
fn with_record(t: Tally, kind: u8, right: bool) -> Tally {
    let mut next = t;
    if !right {
        next.wrong = more(t.wrong);
        return next;
    }
    match kind {
        1 => {
            next.roots = more(t.roots);
        }
        2 => {
            next.narrowed = more(t.narrowed);
        }
        _ => {
            next.ordered = more(t.ordered);
        }
    }
    next
}

// A line of a word and a number.
fn say(rt: &impl Print, word: &str, n: u64) -> io::Result<()> {
    println!(rt; "{word}{n}")
}

// The tally of all records of a reader. What fails to be read counts as its end.
fn counted(input: &mut impl Read) -> Tally {
    let mut t = Tally {
        roots: 0,
        narrowed: 0,
        ordered: 0,
        wrong: 0,
    };
    let mut record = [0u8; 24];
    for _ in 0usize..1_000_000 {
        if input.read_exact(&mut record).is_err() {
            break;
        }
        t = with_record(t, record[0], is_right(&record));
    }
    t
}

// Runs every record of standard input, and says how many of each kind came out right.
fn main(rt: HostRuntime) -> io::Result<()> {
    let t = counted(&mut rt.reader());
    say(&rt, "roots right ", t.roots)?;
    say(&rt, "narrowed right ", t.narrowed)?;
    say(&rt, "ordered right ", t.ordered)?;
    say(&rt, "wrong ", t.wrong)
}
