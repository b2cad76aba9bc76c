// The program's files. No contract of std says what is read or written, so what these functions do is shown by running;
// what is proved is that no byte is lent that isn't there, and that only a scan file is ever saved.
ghost use Rattle.std.specs.Prelude.{◌≡◌, ◌+◌, ◌≤◌, ◌<◌, length};
ghost use Rattle.lists.specs.Puts.{Put};
ghost use Rattle.replies.specs.Clauses.{IsScan};
ghost use Rattle.thin.specs.Clauses.{SaysSame, ReadIn, MadeIn, name_beside};

use std::env::FillError;
use std::fmt::Display;
use std::fs::{OpenFile, OpenOptions};
use std::io::{Error, ErrorKind, Read, Write};
use std::rt::{Env, Files};
use std::{fs, io, str};

// ---- standard output and standard error

// Says what failed, and why, on standard error.
fn say(rt: &impl Eprint, what: &str, why: impl Display + Drop) {
    let _ = eprintln!(rt; "thin: {what}: {why}");
}

// The system's words for an error: what stands before its number, which std writes behind them.
fn without_number(text: &str) -> &str {
    match text.split_once(" (os error ") {
        Some((words, _)) => words,
        None => text,
    }
}

// Says on standard error what failed, and why, in the system's words for the error. Where there is no memory for them, its number stays.
fn complain(rt: &(impl Eprint + Alloc), what: &str, why: Error) {
    match why.to_string(rt.alloc()) {
        Ok(text) => say(rt, what, without_number(text.as_str())),
        Err(_) => say(rt, what, why),
    }
}

// Prints to standard output.
pub fn print(rt: &(impl Print + Eprint + Alloc), bytes: &[u8]) {
    if let Err(why) = rt.write_all(bytes) {
        complain(rt, "standard output", why);
    }
}

// ---- arguments

// The system's numbers of three errors: a file is there, an argument isn't, a name is too long.
const EEXIST: i32 = 17;

const EINVAL: i32 = 22;

const ENAMETOOLONG: i32 = 36;

// Room for an argument: the system takes no path that is longer.
const NAME_ROOM: usize = 4096;

// Why there is no argument.
fn why_none(error: FillError) -> Error {
    match error {
        FillError::NotPresent => Error::from_raw_os_error(EINVAL),
        FillError::TooLong => Error::from_raw_os_error(ENAMETOOLONG),
    }
}

// Why an argument is no name: std takes names that are text alone.
fn why_no_name() -> Error {
    Error::new(ErrorKind::InvalidFilename, "not UTF-8")
}

// Whether two words are the same.
fn is_same(word: &[u8], other: &[u8]) -> bool
    ensures { SaysSame result word.now other.now }
{
    word == other
}

// Whether an argument is there.
pub fn has_argument(rt: &impl Env, at: usize) -> bool {
    !matches!(rt.arg(at, &mut []), Err(FillError::NotPresent))
}

// Whether an argument is there, and is a word.
pub fn is_argument(rt: &impl Env, at: usize, word: &[u8]) -> bool {
    let mut argument = [0; NAME_ROOM];
    match rt.arg(at, &mut argument) {
        Ok(length) => is_same(&argument[..length], word),
        Err(_) => false,
    }
}

// ---- reading

// Reads what a reader of a name gives, to its end or until the buffer is full, and answers how many bytes. Of a failure standard error has a line.
fn read_all(
    rt: &(impl Eprint + Alloc),
    from: &mut impl Read,
    name: &str,
    input: &mut [u8],
) -> Option<usize>
    ensures { ReadIn result input.old input.new }
{
    let mut at = 0;
    while at < input.len() {
        match from.read(&mut input[at..]) {
            Ok(0) => return Some(at),
            Ok(more) => at += more,
            Err(why) => {
                complain(rt, name, why);
                return None;
            }
        }
    }
    Some(at)
}

// Reads the file of a name.
fn read_file(rt: &(impl Files + Eprint + Alloc), name: &str, input: &mut [u8]) -> Option<usize>
    ensures { ReadIn result input.old input.new }
{
    match fs::open(rt, name) {
        Ok(mut file) => read_all(rt, &mut file, name, input),
        Err(why) => {
            complain(rt, name, why);
            None
        }
    }
}

// Reads the file of a name, or standard input for -.
fn read_named(
    rt: &(impl Files + Input + Eprint + Alloc),
    name: &[u8],
    input: &mut [u8],
) -> Option<usize>
    ensures { ReadIn result input.old input.new }
{
    if is_same(name, b"-") {
        return read_all(rt, &mut rt.reader(), "standard input", input);
    }
    match str::from_utf8(name) {
        Ok(name) => read_file(rt, name, input),
        Err(_) => {
            complain(rt, "the name of the file to read", why_no_name());
            None
        }
    }
}

// Reads the file that an argument names, or standard input where there is none.
pub fn read_input(
    rt: &(impl Files + Env + Input + Eprint + Alloc),
    at: usize,
    input: &mut [u8],
) -> Option<usize>
    ensures { ReadIn result input.old input.new }
{
    let mut name = [0; NAME_ROOM];
    match rt.arg(at, &mut name) {
        Ok(length) => read_named(rt, &name[..length], input),
        Err(FillError::NotPresent) => read_all(rt, &mut rt.reader(), "standard input", input),
        Err(error) => {
            complain(rt, "the name of the file to read", why_none(error));
            None
        }
    }
}

// ---- writing: a file beside the one that is asked for, filled, and then given its name

// Writes the k-th name for a file beside another.
fn name_beside(name: &[u8], k: u8, beside: &mut [u8]) -> usize
    requires two_digits { k < 100 }
    requires room { length name.now + 8 ≤ length beside.old }
    ensures { Put (length name.now + 8) (name_beside name.now k) 0 beside.old beside.new result }
{
    let suffix = text::put_word(beside, 0, name);
    let tens = text::put_word(beside, suffix, b".thin-");
    let ones = text::put_byte(beside, tens, 48 + k / 10);
    text::put_byte(beside, ones, 48 + k % 10)
}

// Makes a file beside another, under the first of a hundred names that is free. Answers it and how long its name is, or why there is none.
fn make_beside<R: Files>(rt: &R, name: &str, beside: &mut [u8]) -> io::Result<(R::File, usize)>
    requires { length name.now + 8 ≤ length beside.old }
    ensures { MadeIn result beside.old beside.new }
{
    for k in 0u8..100 {
        let length = name_beside(name.as_bytes(), k, beside);
        let path = str::from_utf8(&beside[..length]).unwrap();
        match OpenOptions::new()
            .write(true)
            .create_new(true)
            .open(rt, path)
        {
            Ok(file) => return Ok((file, length)),
            Err(why) if why.kind() == ErrorKind::AlreadyExists => {}
            Err(why) => return Err(why),
        }
    }
    Err(Error::from_raw_os_error(EEXIST))
}

// Writes all bytes into a file, and waits until they have reached its device.
fn fill(mut file: impl Write + OpenFile + Drop, bytes: &[u8]) -> io::Result<()> {
    file.write_all(bytes)?;
    file.sync_all()
}

// Fills a new file with a scan, and gives it its name.
fn put_in_place<R: Files>(
    rt: &R,
    file: R::File,
    beside: &str,
    name: &str,
    bytes: &[u8],
) -> io::Result<()>
    requires { IsScan bytes.now }
{
    fill(file, bytes)?;
    fs::rename(rt, beside, name)
}

// Saves a scan under a name, whole or not at all: where that fails the new file is removed, and what had the name stays.
fn save(rt: &(impl Files + Eprint + Alloc), name: &str, bytes: &[u8])
    requires { IsScan bytes.now }
{
    let mut beside = [0; NAME_ROOM];
    if 4088 < name.len() {
        let _ = eprintln!(rt; "thin: the name of the file to write is too long");
        return;
    }
    match make_beside(rt, name, &mut beside) {
        Ok((file, length)) => {
            let path = str::from_utf8(&beside[..length]).unwrap();
            if let Err(why) = put_in_place(rt, file, path, name, bytes) {
                complain(rt, name, why);
                let _ = fs::remove_file(rt, path);
            }
        }
        Err(why) => complain(rt, name, why),
    }
}

// Saves a scan as the file that the second argument names.
pub fn save_output(rt: &(impl Files + Env + Eprint + Alloc), bytes: &[u8])
    requires { IsScan bytes.now }
{
    let mut name = [0; NAME_ROOM];
    match rt.arg(2, &mut name) {
        Ok(length) => match str::from_utf8(&name[..length]) {
            Ok(name) => save(rt, name, bytes),
            Err(_) => complain(rt, "the name of the file to write", why_no_name()),
        },
        Err(error) => complain(rt, "the name of the file to write", why_none(error)),
    }
}
