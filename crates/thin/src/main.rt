// The program: a scan file in; the thinned mesh out, as document 01's listing, with why pairs were closed where that is asked for, or as a scan file. A refusal
// is printed, and told in plain words.
#![tactic(auto)]

ghost use Rattle.std.specs.Prelude.{◌≡◌};
ghost use Rattle.replies.specs.declared.Wanted.TheVariants.{File};
ghost use Rattle.replies.specs.Clauses.{IsScan};

mod files;

use replies::{Reply, Wanted};
use std::rt::{Env, Files};
use std::str;

// Prints a refusal's line, and says what it means on standard error.
fn print_refusal(rt: &(impl Print + Eprint + Alloc), line: &[u8], number: u32, place: u32) {
    files::print(rt, line);
    // No complaint takes more bytes.
    let mut words = [0; 134];
    let size = replies::write_complaint(&mut words, number, place);
    let _ = rt.eprint(str::from_utf8(&words[..size]).unwrap());
}

// What is asked for: a file where one is named by a second argument, else the listing.
fn wanted(rt: &impl Env) -> Wanted {
    if files::has_argument(rt, 2) {
        Wanted::File
    } else {
        Wanted::Listing
    }
}

// Prints a listing, or saves a file, which is a scan.
fn hand_out(rt: &(impl Files + Env + Print + Eprint + Alloc), wanted: Wanted, bytes: &[u8])
    requires { wanted ≡ File → IsScan bytes.now }
{
    match wanted {
        Wanted::Listing => files::print(rt, bytes),
        Wanted::File => files::save_output(rt, bytes),
    }
}

// Answers a file. A refusal is printed, and saves nothing.
fn answer(rt: &(impl Files + Env + Print + Eprint + Alloc), wanted: Wanted, bytes: &[u8]) {
    let mut out = replies::text_cells();
    match replies::write_reply(&mut out, wanted, bytes) {
        Reply::Mesh(n, _) => hand_out(rt, wanted, &out[..n]),
        Reply::Refusal(n, number, place, _) => print_refusal(rt, &out[..n], number, place),
    }
}

// Answers a file, with the line of the pairs closed.
fn answer_why(rt: &(impl Print + Eprint + Alloc), bytes: &[u8]) {
    let mut out = replies::text_cells();
    match replies::write_why(&mut out, bytes) {
        Reply::Mesh(n, _) => files::print(rt, &out[..n]),
        Reply::Refusal(n, number, place, _) => print_refusal(rt, &out[..n], number, place),
    }
}

// Answers the file that the first argument names, as it is asked for; or with why, where the first argument asks that, the file that the second names.
fn main(rt: HostRuntime) {
    let why = files::is_argument(&rt, 1, b"--why");
    let mut input = replies::input_cells();
    let Some(n) = files::read_input(&rt, if why { 2 } else { 1 }, &mut input) else {
        return;
    };
    if why {
        answer_why(&rt, &input[..n]);
    } else {
        answer(&rt, wanted(&rt), &input[..n]);
    }
}
