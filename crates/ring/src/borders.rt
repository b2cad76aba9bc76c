// Border points: a point is one if just one face holds it and some other point.
ghost use Rattle.std.specs.Prelude.{◌≡◌, [], true, ◌&&◌, cond, ◌<◌};
ghost use Rattle.lists.specs.Lists.{some, stretch};
ghost use Rattle.walk.specs.Faces.{proper, border_point, face_at};
ghost use Rattle.memory.specs.Memory.{Room, live_faces};
ghost use Rattle.lists.specs.Frames.{But};
ghost use Rattle.mesh.specs.Clauses.Chains.{Tidy};
ghost use Rattle.mesh.specs.Clauses.Laid.{Kinded};
ghost use Rattle.placement.specs.declared.Kind.TheVariants.{Free, Border};
ghost use Rattle.ring.specs.Clauses.Marking.{FacesListed, single, some_point};
ghost use Rattle.memory.specs.Layout.{far_from, near_from};

use crate::marking::{clear_faces, mark_faces};
use memory::{Extent, face_in, mark_at, set_kind};
use mesh::collect;
use placement::Kind;

// Whether a point other than x has the mark 1.
fn is_single(w: &[u32], extent: Extent, x: usize, u: u32) -> bool
    requires fact_1 { Room extent.v extent.f w.now }
    requires fact_2 { u < extent.v }
    ensures { result ≡ single extent.v extent.f w.now x u }
{
    let point = u as usize;
    if x == point {
        return false;
    }
    mark_at(w, extent, point) == 1
}

// Whether a face has a point other than x with the mark 1.
fn face_has_single(w: &[u32], extent: Extent, x: usize, k: usize) -> bool
    requires fact_1 { Room extent.v extent.f w.now }
    requires fact_2 { k < extent.f }
    requires fact_3 { proper extent.v (face_at w.now k) ≡ true }
    ensures { result ≡ some_point (single extent.v extent.f w.now x) (face_at w.now k) }
{
    let p = face_in(w, extent.f, k);
    if is_single(w, extent, x, p.a) {
        return true;
    }
    if is_single(w, extent, x, p.b) {
        return true;
    }
    is_single(w, extent, x, p.c)
}

// Whether one of the listed faces has a point other than x with the mark 1.
fn has_single(w: &[u32], extent: Extent, x: usize, base: usize, n: usize) -> bool
    requires fact_1 { Room extent.v extent.f w.now }
    requires fact_2 { FacesListed extent.v extent.f w.now base n }
    ensures { result ≡ some (λ k. some_point (single extent.v extent.f w.now x) (face_at w.now k)) (stretch w.now base n) }
{
    for &k in &w[base..base + n] {
        if face_has_single(w, extent, x, k as usize) {
            return true;
        }
    }
    false
}

// Whether x is a border point. Only the cells of the faces around a point change.
fn is_border(w: &mut [u32], extent: Extent, x: usize) -> bool
    requires fact_1 { Tidy extent.v extent.f w.old }
    requires fact_2 { x < extent.v }
    ensures value { result ≡ border_point extent.v (live_faces extent.f w.old) x }
    ensures but { But (near_from extent.v extent.f) (far_from extent.v extent.f) w.old w.new }
{
    let base = memory::near_from(extent);
    let n = collect(w, extent, x, base);
    mark_faces(w, extent, base, n);
    let found = has_single(w, extent, x, base, n);
    clear_faces(w, extent, base, n);
    found
}

// The kind of a point that no margin names: border where border points are preserved, else free. Where they are not, no face is looked at.
fn border_kind(w: &mut [u32], extent: Extent, x: usize, preserve: bool) -> Kind
    requires fact_1 { Tidy extent.v extent.f w.old }
    requires fact_2 { x < extent.v }
    ensures value { result ≡ cond (preserve && border_point extent.v (live_faces extent.f w.old) x) Border Free }
    ensures but { But (near_from extent.v extent.f) (far_from extent.v extent.f) w.old w.new }
{
    if preserve {
        if is_border(w, extent, x) {
            return Kind::Border;
        }
    }
    Kind::Free
}

// Writes every point's kind, as it is without a margin.
pub fn mark_borders(w: &mut [u32], extent: Extent, preserve: bool)
    requires { Tidy extent.v extent.f w.old }
    ensures { Kinded extent.v extent.f preserve [] w.old w.new }
{
    for x in 0..extent.v {
        let kind = border_kind(w, extent, x, preserve);
        set_kind(w, extent, x, u32::from(kind));
    }
}
