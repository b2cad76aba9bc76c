// What each point carries at the start, into the memory: its place, and the quadrics of its faces.
ghost use Rattle.std.specs.Prelude.{◌≡◌, map, true, ℕ, ◌+◌, ◌*◌, ◌≤◌, ◌<◌, length};
ghost use Rattle.geometry.specs.Quadrics.{zero_quadric};
ghost use Rattle.lists.specs.Lists.{below};
ghost use Rattle.walk.specs.Faces.{proper, face_at};
ghost use Rattle.memory.specs.Memory.{Room};
ghost use Rattle.memory.specs.Points.{with_points};
ghost use Rattle.meaning.specs.Start.{face_quadric, gathered};
ghost use Rattle.mesh.specs.Clauses.Quadrics.{with_sum, with_face, QuadricsAre};

use geometry::Quadric;
use memory::{Extent, point_at, quadric_at, set_quadric};
use walk::Face;

// The places of the v points.
pub fn lay_points(points: &[f32], p: &mut [f32], v: usize)
    requires fact_1 { length points.now ≡ 3 * v }
    requires fact_2 { 3 * v ≤ length p.old }
    ensures { p.new ≡ with_points v points.now p.old }
{
    lists::copy(points, p);
}

// Every quadric starts at zero.
fn start_quadrics(q: &mut [f64], v: usize)
    requires { 10 * v ≤ length q.old }
    ensures { QuadricsAre v (λ x. zero_quadric) q.old q.new }
{
    for x in 0..v {
        set_quadric(q, x, Quadric::start());
    }
}

// The quadric of a face's plane.
fn face_quadric(p: &[f32], face: Face) -> Quadric
    requires fact_1 { 3 * face.a + 2 < length p.now }
    requires fact_2 { 3 * face.b + 2 < length p.now }
    requires fact_3 { 3 * face.c + 2 < length p.now }
    ensures { result ≡ face_quadric p.now face }
{
    let a = point_at(p, face.a as usize);
    let b = point_at(p, face.b as usize);
    let c = point_at(p, face.c as usize);
    Quadric::of_plane(geometry::plane_of(a, b, c))
}

// Adds a quadric to that of one point.
fn add_quadric(q: &mut [f64], x: usize, value: Quadric)
    requires { 10 * x + 9 < length q.old }
    ensures { q.new ≡ with_sum q.old x value }
{
    let before = quadric_at(q, x);
    set_quadric(q, x, before.sum(value));
}

// Adds a quadric to those of a face's three points.
fn add_face(q: &mut [f64], face: Face, value: Quadric)
    requires fact_1 { 10 * face.a + 9 < length q.old }
    requires fact_2 { 10 * face.b + 9 < length q.old }
    requires fact_3 { 10 * face.c + 9 < length q.old }
    ensures { q.new ≡ with_face q.old face value }
{
    add_quadric(q, face.a as usize, value);
    add_quadric(q, face.b as usize, value);
    add_quadric(q, face.c as usize, value);
}

// The quadrics of the v points: each starts at zero, and the faces add theirs in face order.
pub fn lay_quadrics(w: &[u32], p: &[f32], q: &mut [f64], extent: Extent)
    requires fact_1 { Room extent.v extent.f w.now }
    requires fact_2 { ((k : ℕ) → k < extent.f → proper extent.v (face_at w.now k) ≡ true) }
    requires fact_3 { 3 * extent.v ≤ length p.now }
    requires fact_4 { 10 * extent.v ≤ length q.old }
    ensures { QuadricsAre extent.v (λ x. gathered p.now x zero_quadric (map (face_at w.now) (below extent.f))) q.old q.new }
{
    start_quadrics(q, extent.v);
    for k in 0..extent.f {
        let face = memory::face_in(w, extent.f, k);
        add_face(q, face, face_quadric(p, face));
    }
}
