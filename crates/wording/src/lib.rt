// What an answer's number means, in plain words, into a buffer that the caller lends.
#![tactic(auto)]

ghost use Rattle.std.specs.Prelude.{◌+◌, ◌≤◌, length};
ghost use Rattle.lists.specs.Puts.{Put};
ghost use Rattle.wording.specs.Meanings.{placed, words_line, words_room};
ghost use Rattle.wording.specs.Means.{Means};

use text::{put_byte, put_decimal, put_number, put_word};

// What a number means, and what its place counts, with the words before it: none where it has no place.
#[derive(Clone, Copy)]
struct Words(&'static [u8], &'static [u8]);

// What a place counts.
const COORDINATE: &[u8] = b" (coordinate ";

const FACE: &[u8] = b" (face ";

const FIXED_POINTS: &[u8] = b" (fixed points: ";

const ENTRY: &[u8] = b" (entry ";

const BYTE: &[u8] = b" (byte ";

const NO_PLACE: &[u8] = b"";

// What a number means, and what its place counts: the library's answers, then the file's, then any other.
fn meaning(number: u32) -> Words
    ensures { Means number result }
{
    match number {
        1 => Words(b"a list's length is no multiple of 3", NO_PLACE),
        2 => Words(b"more points or faces than the limit", NO_PLACE),
        3 => Words(b"a lent buffer is too short", NO_PLACE),
        4 => Words(b"there are no points or no faces", NO_PLACE),
        5 => Words(b"the ratio is not a number from 0 to 1", NO_PLACE),
        6 => Words(b"the length limit is not a number", NO_PLACE),
        7 => Words(
            b"a coordinate is not finite or above its unit's bound",
            COORDINATE,
        ),
        8 => Words(b"a face names a point that is not there", FACE),
        9 => Words(b"a face names one point twice", FACE),
        10 => Words(
            b"nothing could be joined, and points are held",
            FIXED_POINTS,
        ),
        11 => Words(b"nothing could be joined", NO_PLACE),
        12 => Words(
            b"the margin does not ascend or names a missing point",
            ENTRY,
        ),
        21 => Words(b"a record is cut short or missing", BYTE),
        22 => Words(b"a record of another kind stands here", BYTE),
        23 => Words(b"a record's length is wrong", BYTE),
        24 => Words(
            b"the unit is neither 1 (millimetre) nor 2 (micrometre)",
            BYTE,
        ),
        25 => Words(b"bytes follow the last record", BYTE),
        26 => Words(b"a flag is set that has no meaning", BYTE),
        27 => Words(
            b"more than 128 points, 256 faces or 128 margin points",
            BYTE,
        ),
        31 => Words(b"the buffer for the file is too short", NO_PLACE),
        _ => Words(b"refused", NO_PLACE),
    }
}

// Writes a place in parentheses, after the word for what it counts, or nothing where there is no word.
fn put_where(out: &mut [u8], at: usize, word: &[u8], place: u32) -> usize
    requires { at + (length word.now + 11) ≤ length out.old }
    ensures { Put (length word.now + 11) (placed word.now place) at out.old out.new result }
{
    if word.is_empty() {
        return at;
    }
    let next = put_word(out, at, word);
    put_number(out, next, place, b')')
}

// Writes an answer and its place in words, one line.
pub fn put_words(out: &mut [u8], at: usize, number: u32, place: u32) -> usize
    requires { at + words_room ≤ length out.old }
    ensures { Put words_room (words_line number place) at out.old out.new result }
{
    let meaning = meaning(number);
    let first = put_word(out, at, b"answer ");
    let second = put_decimal(out, first, number);
    let third = put_word(out, second, b": ");
    let fourth = put_word(out, third, meaning.0);
    let last = put_where(out, fourth, meaning.1, place);
    put_byte(out, last, b'\n')
}
