// The points around a point, listed in lent memory: its neighbours, or those to which a face edge rises from it.
//
// The faces around the point are gathered, the points that they ask for are marked, and each mark that is taken off lists its point. So no point is
// listed twice, though two faces may ask for it.
ghost use Rattle.std.specs.Prelude.{◌≡◌, true, ◌&&◌, ◌≤◌, ◌<◌, eqb};
ghost use Rattle.walk.specs.Faces.{holds, runs as runs_in, proper, face_at};
ghost use Rattle.memory.specs.Memory.{Room, near_at};
ghost use Rattle.mesh.specs.Clauses.Chains.{Tidy};
ghost use Rattle.ring.specs.Clauses.Listing.{AroundListed};
ghost use Rattle.ring.specs.Clauses.Wanting.{Near, found, wanted, Marks};
ghost use Rattle.ring.specs.Clauses.Taking.{Taken, MarksReady};

use crate::Neighbours;
use crate::marking::clear_mark;
use memory::Extent;
use walk::Face;

// Whether an edge of a face runs from x to y.
fn runs(x: u32, y: u32, face: Face) -> bool
    ensures { result ≡ runs_in x y face }
{
    ((x == face.a) & (y == face.b))
        | ((x == face.b) & (y == face.c))
        | ((x == face.c) & (y == face.a))
}

// Whether a face around x asks for its point y: at the start along a rising edge, after a fold for any other point.
fn is_wanted(which: Neighbours, x: u32, y: u32, face: Face) -> bool
    ensures { result ≡ wanted which x y face }
{
    match which {
        Neighbours::Rising => (x < y) & runs(x, y, face),
        Neighbours::Every => x != y,
    }
}

// Marks a point of a face around x that the face asks for.
fn mark_corner(w: &mut [u32], extent: Extent, which: Neighbours, x: u32, y: u32, face: Face)
    requires fact_1 { Room extent.v extent.f w.old }
    requires fact_2 { y < extent.v }
    ensures { Marks extent.v extent.f (λ u. eqb u y && wanted which x y face) w.old w.new }
{
    if is_wanted(which, x, y, face) {
        memory::set_mark(w, extent, y as usize, 1);
    }
}

// Marks the points of a face around x that it asks for.
fn mark_face(w: &mut [u32], extent: Extent, which: Neighbours, x: u32, face: Face)
    requires fact_1 { Room extent.v extent.f w.old }
    requires fact_2 { proper extent.v face ≡ true }
    ensures { Marks extent.v extent.f (λ u. holds u face && wanted which x u face) w.old w.new }
{
    mark_corner(w, extent, which, x, face.a, face);
    mark_corner(w, extent, which, x, face.b, face);
    mark_corner(w, extent, which, x, face.c, face);
}

// A face of those that were gathered.
fn face_near(w: &[u32], extent: Extent, i: usize) -> Face
    requires fact_1 { Room extent.v extent.f w.now }
    requires fact_2 { i < extent.f }
    requires fact_3 { near_at extent.v extent.f w.now i < extent.f }
    ensures { result ≡ face_at w.now (near_at extent.v extent.f w.now i) }
{
    let k = memory::near_at(w, extent, i);
    memory::face_in(w, extent.f, k as usize)
}

// Marks the points that the gathered faces ask for.
fn mark_wanted(w: &mut [u32], extent: Extent, count: usize, which: Neighbours, x: u32)
    requires fact_1 { Room extent.v extent.f w.old }
    requires fact_2 { count ≤ extent.f }
    requires fact_3 { Near extent.v extent.f w.old count }
    ensures { Marks extent.v extent.f (λ u. found extent.v extent.f w.old count (λ face. holds u face && wanted which x u face)) w.old w.new }
{
    for i in 0..count {
        let face = face_near(w, extent, i);
        mark_face(w, extent, which, x, face);
    }
}

// Takes the mark off a point that has one, and lists the point after the n that are listed. Says how many are listed.
fn list_corner(w: &mut [u32], extent: Extent, n: usize, y: u32) -> usize
    requires fact_1 { MarksReady extent.v extent.f w.old n }
    requires fact_2 { y < extent.v }
    ensures { Taken extent.v extent.f (λ u. eqb u y) w.old n w.new result }
{
    if memory::mark_at(w, extent, y as usize) == 0 {
        return n;
    }
    clear_mark(w, extent, y);
    memory::set_around(w, extent, n, y);
    n + 1
}

// Takes the marks off the points of a face, and lists each. Says how many are listed.
fn list_face(w: &mut [u32], extent: Extent, n: usize, face: Face) -> usize
    requires fact_1 { MarksReady extent.v extent.f w.old n }
    requires fact_2 { proper extent.v face ≡ true }
    ensures { Taken extent.v extent.f (λ u. holds u face) w.old n w.new result }
{
    let first = list_corner(w, extent, n, face.a);
    let second = list_corner(w, extent, first, face.b);
    list_corner(w, extent, second, face.c)
}

// Takes the marks off the points of the gathered faces, and lists each. Says how many are listed.
fn list_marked(w: &mut [u32], extent: Extent, count: usize) -> usize
    requires fact_1 { MarksReady extent.v extent.f w.old 0 }
    requires fact_2 { count ≤ extent.f }
    requires fact_3 { Near extent.v extent.f w.old count }
    ensures { Taken extent.v extent.f (λ u. found extent.v extent.f w.old count (λ face. holds u face)) w.old 0 w.new result }
{
    let mut n = 0;
    for i in 0..count {
        let face = face_near(w, extent, i);
        n = list_face(w, extent, n, face);
    }
    n
}

// Lists the points around x, each once. Says how many.
pub fn list_around(w: &mut [u32], extent: Extent, which: Neighbours, x: u32) -> usize
    requires fact_1 { Tidy extent.v extent.f w.old }
    requires fact_2 { x < extent.v }
    ensures { AroundListed extent.v extent.f w.old which x w.new result }
{
    let count = mesh::collect(w, extent, x as usize, memory::near_from(extent));
    mark_wanted(w, extent, count, which, x);
    list_marked(w, extent, count)
}
