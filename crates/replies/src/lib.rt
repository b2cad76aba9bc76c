// From a file's bytes to the reply: what is written is determined by what was read, as reply_of of specs/Replies.antt says.
// A file has at most 128 points, 256 faces and 128 margin points, and no buffer is larger than 64 KiB.
#![tactic(auto)]

ghost use Rattle.std.specs.Prelude.{◌≡◌, ◌+◌, ◌*◌, ◌≤◌, length, take, Ok};
ghost use Rattle.scanfile.specs.Scans.{scan_of};
ghost use Rattle.meaning.specs.Outcome.{outcome};
ghost use Rattle.lists.specs.Puts.{Put};
ghost use Rattle.listing.specs.Texts.{mesh_text};
ghost use Rattle.units.specs.Units.{unit_number};
ghost use Rattle.scanwriter.specs.Written.{scan_bytes};
ghost use Rattle.replies.specs.declared.Wanted.TheVariants.{Listing, File};
ghost use Rattle.replies.specs.Replies.{mesh, refused, closed_line, mesh_bytes, answer_told, call_of, outcome_told, reply_by, reply_of, complaint};
ghost use Rattle.replies.specs.Clauses.{Replied, RepliedWhy, Small, Shown};

use meaning::{Answer, Options};
use scanfile::Head;
use units::Unit;
use walk::Closings;
use walking::Engine;

// What is asked for: document 01's listing, or a scan file.
#[derive(Clone, Copy)]
pub enum Wanted {
    Listing,
    File,
}

// What stands at the beginning of the buffer: so many bytes of the thinned mesh, as it was asked for; or so many of a refusal's line, with
// its number and place. And of either the pairs closed by reason.
#[derive(Clone, Copy)]
pub enum Reply {
    Mesh(usize, Closings),
    Refusal(usize, u32, u32, Closings),
}

// ---- memory, of which only the lengths matter

// How many bytes are read: one over the longest good file, since what comes after can't change the answer.
pub const INPUT_ROOM: usize = 5157;

// How many bytes are written at most: the longest listing takes fewer.
pub const TEXT_ROOM: usize = 12288;

// 128 points, three f32 each; 256 faces, three u32 each; and 128 margin points.
const POINT_CELLS: usize = 384;

const FACE_CELLS: usize = 768;

const MARGIN_CELLS: usize = 128;

// Work memory: 16V+32F u32, 4V+12F f32 and 16V+6F f64.
const WORK_U32_CELLS: usize = 10240;

const WORK_F32_CELLS: usize = 3584;

const WORK_F64_CELLS: usize = 3584;

// As many zeros.
fn zeros<T: Copy + Default, const N: usize>() -> [T; N]
    ensures { N ≡ length result }
{
    [T::default(); N]
}

// The cells that a file is read into.
pub fn input_cells() -> [u8; INPUT_ROOM]
    ensures { 5157 ≡ length result }
{
    zeros()
}

// The cells that a reply is written into.
pub fn text_cells() -> [u8; TEXT_ROOM]
    ensures { 12288 ≡ length result }
{
    zeros()
}

// ---- the reply

// Writes the line of a refusal.
fn write_refusal(out: &mut [u8], wanted: Wanted, number: u32, place: u32, closed: Closings) -> Reply
    requires { 12288 ≤ length out.old }
    ensures { Replied wanted (refused number place closed) out.old out.new result }
{
    let size = listing::list_refusal(out, number, place).unwrap_or(0);
    Reply::Refusal(size, number, place, closed)
}

// Writes the listing of a mesh.
fn write_listing(
    out: &mut [u8],
    unit: Unit,
    folds: u32,
    closed: Closings,
    points: &[f32],
    faces: &[u32],
) -> Reply
    requires fact_1 { 12288 ≤ length out.old }
    requires fact_2 { Small points.now faces.now }
    ensures { Replied Listing (mesh (mesh_text (unit_number unit) folds points.now faces.now) closed) out.old out.new result }
{
    let number = u32::from(unit);
    let size = listing::list_mesh(out, number, folds, points, faces).unwrap_or(0);
    Reply::Mesh(size, closed)
}

// Writes the file of a mesh. It fits, so the writer does not refuse.
fn write_file(out: &mut [u8], unit: Unit, closed: Closings, points: &[f32], faces: &[u32]) -> Reply
    requires fact_1 { 12288 ≤ length out.old }
    requires fact_2 { Small points.now faces.now }
    ensures { Replied File (mesh (scan_bytes (unit_number unit) points.now faces.now) closed) out.old out.new result }
{
    let number = u32::from(unit);
    match scanwriter::write_scan(number, points, faces, out) {
        Ok(size) => Reply::Mesh(size, closed),
        Err(fault) => Reply::Refusal(0, fault.number(), fault.place(), closed),
    }
}

// Writes a mesh as it was asked for.
fn write_mesh(
    out: &mut [u8],
    wanted: Wanted,
    unit: Unit,
    folds: u32,
    closed: Closings,
    points: &[f32],
    faces: &[u32],
) -> Reply
    requires fact_1 { 12288 ≤ length out.old }
    requires fact_2 { Small points.now faces.now }
    ensures { Replied wanted (mesh (mesh_bytes wanted unit folds points.now faces.now) closed) out.old out.new result }
{
    match wanted {
        Wanted::Listing => write_listing(out, unit, folds, closed, points, faces),
        Wanted::File => write_file(out, unit, closed, points, faces),
    }
}

// Writes the reply of an answer, with the points and faces of its mesh at the beginning of two lists.
fn write_answer(
    out: &mut [u8],
    wanted: Wanted,
    unit: Unit,
    answer: Answer,
    points: &[f32],
    faces: &[u32],
) -> Reply
    requires fact_1 { 12288 ≤ length out.old }
    requires fact_2 { Shown answer points.now faces.now }
    ensures { Replied wanted (answer_told wanted unit answer (take (3 * answer.points) points.now) (take (3 * answer.faces) faces.now)) out.old out.new result }
{
    let closed = answer.closed;
    if answer.number != 0 {
        return write_refusal(out, wanted, answer.number, answer.place, closed);
    }
    let points_end = 3 * answer.points as usize;
    let faces_end = 3 * answer.faces as usize;
    write_mesh(
        out,
        wanted,
        unit,
        answer.folds,
        closed,
        &points[..points_end],
        &faces[..faces_end],
    )
}

// Thins a mesh and writes the reply of the outcome.
fn write_thinned(
    out: &mut [u8],
    wanted: Wanted,
    head: Head,
    points: &[f32],
    faces: &[u32],
    margin: &[u32],
) -> Reply
    requires { 12288 ≤ length out.old }
    ensures { Replied wanted (outcome_told wanted head.unit (outcome (call_of head points.now faces.now margin.now))) out.old out.new result }
{
    let mut out_points: [f32; POINT_CELLS] = zeros();
    let mut out_faces: [u32; FACE_CELLS] = zeros();
    let mut work_u32: [u32; WORK_U32_CELLS] = zeros();
    let mut work_f32: [f32; WORK_F32_CELLS] = zeros();
    let mut work_f64: [f64; WORK_F64_CELLS] = zeros();
    let mut folds = [0u32; 1];
    let unit = head.unit;
    let limit = head.limit;
    let options = Options {
        unit: u32::from(unit),
        ratio: head.ratio,
        preserve: head.preserve,
        limit: limit,
    };
    let answer = thinning::thin(
        Engine::Heap,
        points,
        faces,
        margin,
        options,
        &mut out_points,
        &mut out_faces,
        &mut work_u32,
        &mut work_f32,
        &mut work_f64,
        &mut folds,
    );
    write_answer(out, wanted, unit, answer, &out_points, &out_faces)
}

// Reads a good file's mesh, thins it and writes the reply of the outcome.
fn write_good(out: &mut [u8], wanted: Wanted, bytes: &[u8], head: Head) -> Reply
    requires fact_1 { 12288 ≤ length out.old }
    requires fact_2 { scan_of bytes.now ≡ Ok head }
    ensures { Replied wanted (reply_by wanted bytes.now (Ok head)) out.old out.new result }
{
    let mut points: [f32; POINT_CELLS] = zeros();
    let mut faces: [u32; FACE_CELLS] = zeros();
    let mut margin: [u32; MARGIN_CELLS] = zeros();
    let v = head.points;
    let f = head.faces;
    let m = head.margin;
    scanfile::read_points(bytes, v, &mut points);
    scanfile::read_faces(bytes, v, f, &mut faces);
    scanfile::read_margin(bytes, v, f, m, &mut margin);
    let points_end = 3 * v;
    let faces_end = 3 * f;
    write_thinned(
        out,
        wanted,
        head,
        &points[..points_end],
        &faces[..faces_end],
        &margin[..m],
    )
}

// Writes the reply to a file.
pub fn write_reply(out: &mut [u8], wanted: Wanted, bytes: &[u8]) -> Reply
    requires { 12288 ≤ length out.old }
    ensures { Replied wanted (reply_of wanted bytes.now) out.old out.new result }
{
    match scanfile::read_scan(bytes) {
        Ok(head) => write_good(out, wanted, bytes, head),
        Err(bad) => write_refusal(
            out,
            wanted,
            bad.fault.number(),
            bad.place,
            Closings::default(),
        ),
    }
}

// Writes the line of the pairs closed.
fn put_why(out: &mut [u8], at: usize, closed: Closings) -> usize
    requires { at + 70 ≤ length out.old }
    ensures { Put 70 (closed_line closed) at out.old out.new result }
{
    listing::put_closed(out, at, closed.unlinked, closed.squashed, closed.turned)
}

// Writes the reply to a file, with the line of the pairs closed after it.
pub fn write_why(out: &mut [u8], bytes: &[u8]) -> Reply
    requires { 12288 ≤ length out.old }
    ensures { RepliedWhy (reply_of Listing bytes.now) out.old out.new result }
{
    match write_reply(out, Wanted::Listing, bytes) {
        Reply::Mesh(n, closed) => {
            let size = put_why(out, n, closed);
            Reply::Mesh(size, closed)
        }
        Reply::Refusal(n, number, place, closed) => {
            let size = put_why(out, n, closed);
            Reply::Refusal(size, number, place, closed)
        }
    }
}

// Writes a refusal in plain words, for standard error.
pub fn write_complaint(out: &mut [u8], number: u32, place: u32) -> usize
    requires { 134 ≤ length out.old }
    ensures { Put 134 (complaint number place) 0 out.old out.new result }
{
    let next = text::put_word(out, 0, b"thin: ");
    wording::put_words(out, next, number, place)
}
