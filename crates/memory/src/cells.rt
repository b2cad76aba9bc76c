// The cells of the memory, each by its name: read, and written.
ghost use Rattle.std.specs.Prelude.{◌≡◌, ◌+◌, ◌*◌, ◌≤◌, ◌<◌, length, get_or, set};
ghost use Rattle.memory.specs.Memory.{corner, live, lives, next, first, kind, mark, near_at};
ghost use Rattle.walk.specs.Faces.{face_at};
ghost use Rattle.memory.specs.Layout.{firsts_from, kinds_from, lives_from, marks_from, nexts_from, near_from, around_from};

use crate::layout::Extent;
use walk::Face;

// The point at a corner.
pub fn corner_at(w: &[u32], c: usize) -> u32
    requires { c < length w.now }
    ensures { result ≡ corner w.now c }
{
    w[c]
}

// What says whether the face in a slot is there: 1 while it is.
pub fn live_at(w: &[u32], f: usize, k: usize) -> u32
    requires { lives_from f + k < length w.now }
    ensures { result ≡ live f w.now k }
{
    w[3 * f + k]
}

// Whether the face in a slot is there.
pub fn is_live(w: &[u32], f: usize, k: usize) -> bool
    requires { lives_from f + k < length w.now }
    ensures { result ≡ lives f w.now k }
{
    live_at(w, f, k) == 1
}

// The link from a corner to the next one at the same point.
pub fn next_at(w: &[u32], f: usize, c: usize) -> u32
    requires { nexts_from f + c < length w.now }
    ensures { result ≡ next f w.now c }
{
    w[4 * f + c]
}

// The link from a point to its first corner.
pub fn first_at(w: &[u32], f: usize, x: usize) -> u32
    requires { firsts_from f + x < length w.now }
    ensures { result ≡ first f w.now x }
{
    w[7 * f + x]
}

// What a point is, by number.
pub fn kind_at(w: &[u32], extent: Extent, x: usize) -> u32
    requires { kinds_from extent.v extent.f + x < length w.now }
    ensures { result ≡ kind extent.v extent.f w.now x }
{
    w[7 * extent.f + extent.v + x]
}

// The mark at a point.
pub fn mark_at(w: &[u32], extent: Extent, x: usize) -> u32
    requires { marks_from extent.v extent.f + x < length w.now }
    ensures { result ≡ mark extent.v extent.f w.now x }
{
    w[7 * extent.f + 2 * extent.v + x]
}

// The face in a slot.
pub fn face_in(w: &[u32], f: usize, k: usize) -> Face
    requires { (k < f) × (3 * f ≤ length w.now) }
    ensures { result ≡ face_at w.now k }
{
    Face {
        a: w[3 * k],
        b: w[3 * k + 1],
        c: w[3 * k + 2],
    }
}

// Puts a point at a corner.
pub fn set_corner(w: &mut [u32], c: usize, value: u32)
    requires { c < length w.old }
    ensures { w.new ≡ set w.old c value }
{
    w[c] = value;
}

// Says whether the face in a slot is there.
pub fn set_live(w: &mut [u32], f: usize, k: usize, value: u32)
    requires { lives_from f + k < length w.old }
    ensures { w.new ≡ set w.old (lives_from f + k) value }
{
    w[3 * f + k] = value;
}

// Puts a link at a corner.
pub fn set_next(w: &mut [u32], f: usize, c: usize, value: u32)
    requires { nexts_from f + c < length w.old }
    ensures { w.new ≡ set w.old (nexts_from f + c) value }
{
    w[4 * f + c] = value;
}

// Puts a link at a point.
pub fn set_first(w: &mut [u32], f: usize, x: usize, value: u32)
    requires { firsts_from f + x < length w.old }
    ensures { w.new ≡ set w.old (firsts_from f + x) value }
{
    w[7 * f + x] = value;
}

// Says what a point is.
pub fn set_kind(w: &mut [u32], extent: Extent, x: usize, value: u32)
    requires { kinds_from extent.v extent.f + x < length w.old }
    ensures { w.new ≡ set w.old (kinds_from extent.v extent.f + x) value }
{
    w[7 * extent.f + extent.v + x] = value;
}

// Marks a point.
pub fn set_mark(w: &mut [u32], extent: Extent, x: usize, value: u32)
    requires { marks_from extent.v extent.f + x < length w.old }
    ensures { w.new ≡ set w.old (marks_from extent.v extent.f + x) value }
{
    w[7 * extent.f + 2 * extent.v + x] = value;
}

// The slot in a place of the list of the faces around a point.
pub fn near_at(w: &[u32], extent: Extent, i: usize) -> u32
    requires { near_from extent.v extent.f + i < length w.now }
    ensures { result ≡ near_at extent.v extent.f w.now i }
{
    w[19 * extent.f + 4 * extent.v + i]
}

// The point in a place of the list of the points around a point.
pub fn around_at(w: &[u32], extent: Extent, i: usize) -> u32
    requires { around_from extent.v extent.f + i < length w.now }
    ensures { result ≡ get_or w.now (around_from extent.v extent.f + i) 0 }
{
    w[21 * extent.f + 4 * extent.v + i]
}

// Puts a point into a place of the list of the points around a point.
pub fn set_around(w: &mut [u32], extent: Extent, i: usize, value: u32)
    requires { around_from extent.v extent.f + i < length w.old }
    ensures { w.new ≡ set w.old (around_from extent.v extent.f + i) value }
{
    w[21 * extent.f + 4 * extent.v + i] = value;
}
