// What each point carries, in lent memory: its place, its quadric and its kind.
ghost use Rattle.std.specs.Prelude.{◌≡◌, ◌+◌, ◌*◌, ◌<◌, [], ◌∷◌, length};
ghost use Rattle.std.proofs.lemmas.List.Edits.{sets};
ghost use Rattle.meaning.specs.Input.{point_at};
ghost use Rattle.memory.specs.Points.{quadric_at, vertex_with, vertex_at, with_point, with_quadric};
ghost use Rattle.memory.specs.Layout.{kinds_from};

use crate::layout::Extent;
use geometry::{Point, Quadric};
use placement::Kind;
use placement::pair::Vertex;

// A point's place.
pub fn point_at(p: &[f32], x: usize) -> Point
    requires { 3 * x + 2 < length p.now }
    ensures { result ≡ point_at p.now x }
{
    Point {
        x: p[3 * x],
        y: p[3 * x + 1],
        z: p[3 * x + 2],
    }
}

// A point's quadric.
pub fn quadric_at(q: &[f64], x: usize) -> Quadric
    requires { 10 * x + 9 < length q.now }
    ensures { result ≡ quadric_at q.now x }
{
    let at = 10 * x;
    Quadric {
        m11: q[at],
        m12: q[at + 1],
        m13: q[at + 2],
        m14: q[at + 3],
        m22: q[at + 4],
        m23: q[at + 5],
        m24: q[at + 6],
        m33: q[at + 7],
        m34: q[at + 8],
        m44: q[at + 9],
    }
}

// All that a point carries, where its quadric is at hand.
pub fn vertex_with(w: &[u32], p: &[f32], extent: Extent, x: usize, quadric: Quadric) -> Vertex
    requires fact_1 { kinds_from extent.v extent.f + x < length w.now }
    requires fact_2 { 3 * x + 2 < length p.now }
    ensures { result ≡ vertex_with extent.v extent.f w.now p.now x quadric }
{
    Vertex {
        point: point_at(p, x),
        quadric,
        kind: Kind::from(crate::cells::kind_at(w, extent, x)),
    }
}

// All that a point carries.
pub fn vertex_at(w: &[u32], p: &[f32], q: &[f64], extent: Extent, x: usize) -> Vertex
    requires fact_1 { kinds_from extent.v extent.f + x < length w.now }
    requires fact_2 { 3 * x + 2 < length p.now }
    requires fact_3 { 10 * x + 9 < length q.now }
    ensures { result ≡ vertex_at extent.v extent.f w.now p.now q.now x }
{
    vertex_with(w, p, extent, x, quadric_at(q, x))
}

// Puts a point at its place.
pub fn set_point(p: &mut [f32], x: usize, at: Point)
    requires { 3 * x + 2 < length p.old }
    ensures { p.new ≡ with_point p.old x at }
{
    p[3 * x] = at.x;
    p[3 * x + 1] = at.y;
    p[3 * x + 2] = at.z;
}

// Puts five values into the cells from one on.
fn set_five(q: &mut [f64], at: usize, a: f64, b: f64, c: f64, d: f64, e: f64)
    requires { at + 4 < length q.old }
    ensures { q.new ≡ sets q.old at (a ∷ b ∷ c ∷ d ∷ e ∷ []) }
{
    q[at] = a;
    q[at + 1] = b;
    q[at + 2] = c;
    q[at + 3] = d;
    q[at + 4] = e;
}

// Puts a quadric at its point.
pub fn set_quadric(q: &mut [f64], x: usize, value: Quadric)
    requires { 10 * x + 9 < length q.old }
    ensures { q.new ≡ with_quadric q.old x value }
{
    let at = 10 * x;
    set_five(q, at, value.m11, value.m12, value.m13, value.m14, value.m22);
    set_five(
        q,
        at + 5,
        value.m23,
        value.m24,
        value.m33,
        value.m34,
        value.m44,
    );
}
