// The listing of an answer, byte for byte, into a buffer that the caller lends.
#![tactic(auto)]

ghost use Rattle.std.specs.Prelude.{◌≡◌, ◌+◌, ◌*◌, ◌/◌, ◌≤◌, ◌<◌, length};
ghost use Rattle.text.specs.Lines.{lines_to};
ghost use Rattle.lists.specs.Puts.{Put};
ghost use Rattle.listing.specs.Texts.{float_then, point_line, face_line, head_text, refusal_text, closed_text, mesh_text, mesh_room, refusal_fits, mesh_fits};
ghost use Rattle.listing.specs.Written.{Prints};
ghost use Rattle.listing.specs.Clauses.{MeshAsked};

use bits::patterns::bits_of_f32;
use text::{put_byte, put_decimal, put_hexadecimal, put_line, put_number, put_word};

// Writes a float by its bits and the byte after it.
fn put_float(out: &mut [u8], at: usize, x: f32, end: u8) -> usize
    requires { at + 9 ≤ length out.old }
    ensures { Put 9 (float_then x end) at out.old out.new result }
{
    let next = put_hexadecimal(out, at, bits_of_f32(x));
    put_byte(out, next, end)
}

// Writes the line of point number k.
fn put_point(out: &mut [u8], at: usize, points: &[f32], k: usize) -> usize
    requires room { at + 27 ≤ length out.old }
    requires there { 3 * k + 2 < length points.now }
    ensures { Put 27 (point_line points.now k) at out.old out.new result }
{
    let first = 3 * k;
    let second = put_float(out, at, points[first], b' ');
    let third = put_float(out, second, points[first + 1], b' ');
    put_float(out, third, points[first + 2], b'\n')
}

// Writes the line of face number k.
fn put_face(out: &mut [u8], at: usize, faces: &[u32], k: usize) -> usize
    requires room { at + 33 ≤ length out.old }
    requires there { 3 * k + 2 < length faces.now }
    ensures { Put 33 (face_line faces.now k) at out.old out.new result }
{
    let first = 3 * k;
    let second = put_number(out, at, faces[first], b' ');
    let third = put_number(out, second, faces[first + 1], b' ');
    put_number(out, third, faces[first + 2], b'\n')
}

// Writes the lines of the first v points.
fn put_points(out: &mut [u8], at: usize, points: &[f32], v: usize) -> usize
    requires room { at + 27 * v ≤ length out.old }
    requires all_there { 3 * v ≤ length points.now }
    ensures { Put (27 * v) (lines_to (point_line points.now) v) at out.old out.new result }
{
    let mut next = at;
    for k in 0..v {
        next = put_point(out, next, points, k);
    }
    next
}

// Writes the lines of the first f faces.
fn put_faces(out: &mut [u8], at: usize, faces: &[u32], f: usize) -> usize
    requires room { at + 33 * f ≤ length out.old }
    requires all_there { 3 * f ≤ length faces.now }
    ensures { Put (33 * f) (lines_to (face_line faces.now) f) at out.old out.new result }
{
    let mut next = at;
    for k in 0..f {
        next = put_face(out, next, faces, k);
    }
    next
}

// Writes the lines before the points.
fn put_head(out: &mut [u8], unit: u32, folds: u32, v: u32) -> usize
    requires { 71 ≤ length out.old }
    ensures { Put 71 (head_text unit folds v) 0 out.old out.new result }
{
    let units = put_line(out, 0, b"answer ", 0);
    let made = put_line(out, units, b"unit ", unit);
    let count = put_line(out, made, b"folds ", folds);
    put_line(out, count, b"vertices ", v)
}

// Writes a mesh where there is room for it, and answers how many bytes.
fn put_mesh(out: &mut [u8], unit: u32, folds: u32, points: &[f32], faces: &[u32]) -> usize
    requires { MeshAsked points.now faces.now out.old }
    ensures { Put (mesh_room (length points.now / 3) (length faces.now / 3)) (mesh_text unit folds points.now faces.now) 0 out.old out.new result }
{
    let v = points.len() / 3;
    let f = faces.len() / 3;
    let first_point = put_head(out, unit, folds, v as u32);
    let count = put_points(out, first_point, points, v);
    let first_face = put_line(out, count, b"faces ", f as u32);
    put_faces(out, first_face, faces, f)
}

// Whether a mesh is within document 01's limits and the room is enough for it.
fn mesh_fits(room: usize, v: usize, f: usize) -> bool
    ensures { result ≡ mesh_fits room v f }
{
    v <= 65536 && f <= 131072 && 27 * v + 33 * f + 88 <= room
}

// Writes the line of the pairs closed: not linked, squashed, turned over.
pub fn put_closed(out: &mut [u8], at: usize, unlinked: u64, squashed: u64, turned: u64) -> usize
    requires { at + 70 ≤ length out.old }
    ensures { Put 70 (closed_text unlinked squashed turned) at out.old out.new result }
{
    let first = put_word(out, at, b"closed ");
    let second = put_number(out, first, unlinked, b' ');
    let third = put_number(out, second, squashed, b' ');
    put_number(out, third, turned, b'\n')
}

// Prints a refusal, one line with its number and place, and answers how many bytes. There is none where the buffer is too short, and nothing is written.
pub fn list_refusal(out: &mut [u8], number: u32, place: u32) -> Option<usize>
    ensures { Prints (refusal_fits (length out.old)) (refusal_text number place) out.old out.new result }
{
    if out.len() < 35 {
        return None;
    }
    let next = put_word(out, 0, b"answer ");
    let after = put_decimal(out, next, number);
    Some(put_line(out, after, b" place ", place))
}

// Prints a mesh: the unit, the folds made, the points by their bits and the faces by their points' numbers, three to each. Answers how many bytes.
// There is none where the buffer is too short or the mesh larger than document 01 allows, and nothing is written.
pub fn list_mesh(
    out: &mut [u8],
    unit: u32,
    folds: u32,
    points: &[f32],
    faces: &[u32],
) -> Option<usize>
    ensures { Prints (mesh_fits (length out.old) (length points.now / 3) (length faces.now / 3)) (mesh_text unit folds points.now faces.now) out.old out.new result }
{
    if mesh_fits(out.len(), points.len() / 3, faces.len() / 3) {
        Some(put_mesh(out, unit, folds, points, faces))
    } else {
        None
    }
}
