// The live faces in face order, their points numbered by first use.
ghost use Rattle.std.specs.Prelude.{◌≡◌, true, ◌+◌, ◌*◌, ◌≤◌, ◌<◌, length};
ghost use Rattle.walk.specs.Faces.{proper};
ghost use Rattle.memory.specs.Memory.{Room};
ghost use Rattle.mesh.specs.Clauses.Chains.{Tidy};
ghost use Rattle.meaning.specs.Input.{point_at};
ghost use Rattle.output.specs.Clauses.Written.{MeshWritten};
ghost use Rattle.output.specs.Clauses.Numbering.{three_put, parts_put, Known, Numbered, FaceWritten};

use crate::Counts;
use memory::{Extent, face_in, is_live, mark_at, point_at, set_mark};
use walk::Face;

// A point's new number, and how many points have one.
#[derive(Clone, Copy)]
struct NewNumber {
    number: u32,
    met: usize,
}

// Writes the parts of the point x as those of the point number n.
fn put_point(p: &[f32], x: usize, out_points: &mut [f32], n: usize)
    requires fact_1 { 3 * x + 2 < length p.now }
    requires fact_2 { 3 * n + 2 < length out_points.old }
    ensures { out_points.new ≡ parts_put out_points.old n (point_at p.now x) }
{
    let point = point_at(p, x);
    out_points[3 * n] = point.x;
    out_points[3 * n + 1] = point.y;
    out_points[3 * n + 2] = point.z;
}

// Writes three numbers as those of the face number n.
fn put_face(out_faces: &mut [u32], n: usize, a: u32, b: u32, c: u32)
    requires { 3 * n + 2 < length out_faces.old }
    ensures { out_faces.new ≡ three_put out_faces.old n a b c }
{
    out_faces[3 * n] = a;
    out_faces[3 * n + 1] = b;
    out_faces[3 * n + 2] = c;
}

// The new number of a point. One that is new gets the next number, its mark keeps that number plus 1, and its parts are written.
fn number_of(
    w: &mut [u32],
    p: &[f32],
    extent: Extent,
    x: usize,
    met: usize,
    out_points: &mut [f32],
) -> NewNumber
    requires fact_1 { Room extent.v extent.f w.old }
    requires fact_2 { x < extent.v }
    requires fact_3 { 3 * extent.v ≤ length p.now }
    requires fact_4 { Known extent.v extent.f p.now w.old out_points.old met }
    ensures { Numbered extent.v extent.f p.now x w.old out_points.old met w.new out_points.new result }
{
    let kept = mark_at(w, extent, x);
    if kept != 0 {
        return NewNumber {
            number: kept - 1,
            met,
        };
    }
    put_point(p, x, out_points, met);
    set_mark(w, extent, x, (met + 1) as u32);
    NewNumber {
        number: met as u32,
        met: met + 1,
    }
}

// Writes one face after those written, by its points' new numbers.
fn write_face(
    w: &mut [u32],
    p: &[f32],
    extent: Extent,
    face: Face,
    counts: Counts,
    out_points: &mut [f32],
    out_faces: &mut [u32],
) -> Counts
    requires fact_1 { Room extent.v extent.f w.old }
    requires fact_2 { proper extent.v face ≡ true }
    requires fact_3 { 3 * extent.v ≤ length p.now }
    requires fact_4 { 3 * counts.faces + 3 ≤ length out_faces.old }
    requires fact_5 { Known extent.v extent.f p.now w.old out_points.old counts.points }
    ensures { FaceWritten extent.v extent.f p.now face w.old out_points.old out_faces.old counts w.new out_points.new out_faces.new result }
{
    let a = number_of(w, p, extent, face.a as usize, counts.points, out_points);
    let b = number_of(w, p, extent, face.b as usize, a.met, out_points);
    let c = number_of(w, p, extent, face.c as usize, b.met, out_points);
    put_face(out_faces, counts.faces, a.number, b.number, c.number);
    Counts {
        points: c.met,
        faces: counts.faces + 1,
    }
}

// Writes the live faces in face order, and the points that they use by first use. The numbers are left in the marks.
pub fn write_mesh(
    w: &mut [u32],
    p: &[f32],
    extent: Extent,
    out_points: &mut [f32],
    out_faces: &mut [u32],
) -> Counts
    requires fact_1 { Tidy extent.v extent.f w.old }
    requires fact_2 { 3 * extent.v ≤ length p.now }
    requires fact_3 { 3 * extent.v ≤ length out_points.old }
    requires fact_4 { 3 * extent.f ≤ length out_faces.old }
    ensures { MeshWritten extent.v extent.f w.old p.now out_points.old out_faces.old w.new out_points.new out_faces.new result }
{
    let mut counts = Counts {
        points: 0,
        faces: 0,
    };
    for k in 0..extent.f {
        if is_live(w, extent.f, k) {
            let face = face_in(w, extent.f, k);
            counts = write_face(w, p, extent, face, counts, out_points, out_faces);
        }
    }
    counts
}
