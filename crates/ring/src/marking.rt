// The marks of the points of listed faces. A list is n slots from base on.
ghost use Rattle.std.specs.Prelude.{◌≡◌, true, cond, ◌+◌, ◌≤◌, ◌<◌, eqb, length, get_or};
ghost use Rattle.walk.specs.Faces.{holds, proper, face_at};
ghost use Rattle.memory.specs.Memory.{Room, Unmarked, mark};
ghost use Rattle.mesh.specs.Clauses.Around.{Marked, Cleared};
ghost use Rattle.ring.specs.Clauses.Marking.{FacesListed, Remarked, FewMarks};

use memory::{Extent, face_in, mark_at, set_mark};

// The slot at a place of a list.
pub fn slot_at(w: &[u32], base: usize, i: usize) -> usize
    requires { base + i < length w.now }
    ensures { result ≡ get_or w.now (base + i) 0 }
{
    w[base + i] as usize
}

// Adds 1 to a point's mark, where the marks are still small.
fn add_mark(w: &mut [u32], extent: Extent, x: u32)
    requires fact_1 { Room extent.v extent.f w.old }
    requires fact_2 { x < extent.v }
    requires fact_3 { mark extent.v extent.f w.old x ≤ extent.f + 1 }
    ensures { Remarked extent.v extent.f (λ u m. m + cond (eqb u x) 1 0) w.old w.new }
{
    let point = x as usize;
    let old = mark_at(w, extent, point);
    set_mark(w, extent, point, old + 1);
}

// Adds 1 to the mark of each point of a face.
fn mark_face(w: &mut [u32], extent: Extent, k: usize)
    requires fact_1 { Room extent.v extent.f w.old }
    requires fact_2 { k < extent.f }
    requires fact_3 { proper extent.v (face_at w.old k) ≡ true }
    requires fact_4 { FewMarks extent.v extent.f w.old }
    ensures { Remarked extent.v extent.f (λ u m. m + cond (holds u (face_at w.old k)) 1 0) w.old w.new }
{
    let p = face_in(w, extent.f, k);
    add_mark(w, extent, p.a);
    add_mark(w, extent, p.b);
    add_mark(w, extent, p.c);
}

// Each of the listed faces adds 1 to the mark of each of its three points.
pub fn mark_faces(w: &mut [u32], extent: Extent, base: usize, n: usize)
    requires fact_1 { Room extent.v extent.f w.old }
    requires fact_2 { Unmarked extent.v extent.f w.old }
    requires fact_3 { FacesListed extent.v extent.f w.old base n }
    requires fact_4 { n ≤ extent.f }
    ensures { Marked extent.v extent.f w.old base n w.new }
{
    for i in 0..n {
        let k = slot_at(w, base, i);
        mark_face(w, extent, k);
    }
}

// Sets a point's mark to 0.
pub fn clear_mark(w: &mut [u32], extent: Extent, x: u32)
    requires fact_1 { Room extent.v extent.f w.old }
    requires fact_2 { x < extent.v }
    ensures { Remarked extent.v extent.f (λ u m. cond (eqb u x) 0 m) w.old w.new }
{
    set_mark(w, extent, x as usize, 0);
}

// Sets the mark of each point of a face to 0.
fn clear_face(w: &mut [u32], extent: Extent, k: usize)
    requires fact_1 { Room extent.v extent.f w.old }
    requires fact_2 { k < extent.f }
    requires fact_3 { proper extent.v (face_at w.old k) ≡ true }
    ensures { Remarked extent.v extent.f (λ u m. cond (holds u (face_at w.old k)) 0 m) w.old w.new }
{
    let p = face_in(w, extent.f, k);
    clear_mark(w, extent, p.a);
    clear_mark(w, extent, p.b);
    clear_mark(w, extent, p.c);
}

// Sets the mark of each point of the listed faces to 0.
pub fn clear_faces(w: &mut [u32], extent: Extent, base: usize, n: usize)
    requires fact_1 { Room extent.v extent.f w.old }
    requires fact_2 { FacesListed extent.v extent.f w.old base n }
    ensures { Cleared extent.v extent.f w.old base n w.new }
{
    for i in 0..n {
        let k = slot_at(w, base, i);
        clear_face(w, extent, k);
    }
}
