// What two points have in common: the faces that hold both, and the neighbours of both.
ghost use Rattle.std.specs.Prelude.{◌≡◌, true, cond, ◌+◌, ◌*◌, ◌≤◌, ◌<◌, ltb, eqb, length};
ghost use Rattle.lists.specs.Lists.{count, every, stretch};
ghost use Rattle.walk.specs.Faces.{holds, proper, common, face_at};
ghost use Rattle.memory.specs.Memory.{Room, live_faces};
ghost use Rattle.mesh.specs.Clauses.Chains.{Tidy};
ghost use Rattle.ring.specs.Clauses.Marking.{FacesListed, Around, held_in};
ghost use Rattle.ring.specs.Clauses.Counting.{Counted};

use crate::Ring;
use crate::marking::{clear_faces, clear_mark, mark_faces, slot_at};
use memory::{Extent, face_in, mark_at};

// How many of the listed faces hold y.
pub fn shared_count(w: &[u32], f: usize, base: usize, n: usize, y: u32) -> usize
    requires fact_1 { 3 * f ≤ length w.now }
    requires fact_2 { base + n ≤ length w.now }
    requires fact_3 { every (λ k. ltb k f) (stretch w.now base n) ≡ true }
    ensures { result ≡ count (λ k. holds y (face_at w.now k)) (stretch w.now base n) }
{
    let mut r = 0;
    for &k in &w[base..base + n] {
        if face_in(w, f, k as usize).holds(y) {
            r += 1;
        }
    }
    r
}

// Whether a point counts: it is marked and is neither of two. Its mark is taken, so that it counts once.
fn counts(w: &mut [u32], extent: Extent, keep: u32, remove: u32, x: u32) -> bool
    requires room { Room extent.v extent.f w.old }
    requires within { x < extent.v }
    ensures { Counted extent.v extent.f keep remove (λ u. eqb u x) w.old w.new (cond result 1 0) }
{
    if (keep == x) | (remove == x) {
        return false;
    }
    if mark_at(w, extent, x as usize) == 0 {
        return false;
    }
    clear_mark(w, extent, x);
    true
}

// Counts the marked points of a face that are neither of two, and takes their marks.
fn count_face(w: &mut [u32], extent: Extent, keep: u32, remove: u32, k: usize) -> usize
    requires fact_1 { Room extent.v extent.f w.old }
    requires fact_2 { k < extent.f }
    requires fact_3 { proper extent.v (face_at w.old k) ≡ true }
    ensures { Counted extent.v extent.f keep remove (λ u. holds u (face_at w.old k)) w.old w.new result }
{
    let p = face_in(w, extent.f, k);
    let a = counts(w, extent, keep, remove, p.a);
    let b = counts(w, extent, keep, remove, p.b);
    let c = counts(w, extent, keep, remove, p.c);
    usize::from(a) + usize::from(b) + usize::from(c)
}

// Counts the marked points of the listed faces that are neither of two, and takes their marks.
fn count_faces(
    w: &mut [u32],
    extent: Extent,
    keep: u32,
    remove: u32,
    base: usize,
    n: usize,
) -> usize
    requires fact_1 { Room extent.v extent.f w.old }
    requires fact_2 { FacesListed extent.v extent.f w.old base n }
    ensures { Counted extent.v extent.f keep remove (held_in w.old base n) w.old w.new result }
{
    let mut r = 0;
    for i in 0..n {
        let k = slot_at(w, base, i);
        r += count_face(w, extent, keep, remove, k);
    }
    r
}

// How many points are neighbours of both keep and remove, by the faces around them.
pub fn common_count(w: &mut [u32], extent: Extent, keep: u32, remove: u32, ring: Ring) -> usize
    requires fact_1 { Tidy extent.v extent.f w.old }
    requires fact_2 { Around extent.v extent.f w.old keep ring.near ring.nears }
    requires fact_3 { Around extent.v extent.f w.old remove ring.far ring.fars }
    ensures value { result ≡ common extent.v (live_faces extent.f w.old) keep remove }
    ensures w_unchanged { w.new ≡ w.old }
{
    mark_faces(w, extent, ring.near, ring.nears);
    let r = count_faces(w, extent, keep, remove, ring.far, ring.fars);
    clear_faces(w, extent, ring.near, ring.nears);
    r
}
