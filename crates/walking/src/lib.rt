// A mesh laid out in the work memory and walked by either engine, with its folds listed.
#![tactic(auto)]

ghost use Rattle.std.specs.Prelude.{◌≡◌, ◌+◌, ◌*◌, ◌/◌, ◌≤◌, length, true};
ghost use Rattle.memory.specs.Memory.{Room};
ghost use Rattle.memory.specs.Entries.{folds_in};
ghost use Rattle.units.specs.Units.{known_unit};
ghost use Rattle.meaning.specs.Call.{listed};
ghost use Rattle.walking.specs.Clauses.{Layable, Walkable, LaidOut, bounds_of, WalkedBy, input_walked, MeshWalked};

use meaning::Options;
use memory::Extent;
use placement::Bounds;
use plainwalk::Walked;
use units::unit_of;
use walk::Closings;

// How the mesh is walked: by every cost worked out anew, or by a queue.
#[derive(Clone, Copy)]
pub enum Engine {
    Plain,
    Heap,
}

// What the walk of a mesh came to: the faces it was to reach, how many points are fixed, the folds made, and the pairs closed by reason.
#[derive(Clone, Copy)]
pub struct Came {
    pub target: usize,
    pub fixed: usize,
    pub folds: usize,
    pub closed: Closings,
}

// Lays the mesh out in the work memory as it is at the start, and counts the points that are fixed.
fn laid_out(
    points: &[f32],
    faces: &[u32],
    margin: &[u32],
    preserve: bool,
    w: &mut [u32],
    p: &mut [f32],
    q: &mut [f64],
    extent: Extent,
) -> usize
    requires { Layable extent.v extent.f points.now faces.now margin.now w.old p.old q.old }
    ensures { LaidOut extent.v extent.f points.now faces.now preserve margin.now w.old p.old q.old w.new p.new q.new result }
{
    mesh::lay_faces(faces, w, extent);
    let fixed = ring::mark_kinds(w, extent, preserve, margin);
    mesh::lay_points(points, p, extent.v);
    mesh::lay_quadrics(w, p, q, extent);
    fixed
}

// What bounds the pairs of a walk with these options: their limit, and their unit's bound.
fn bounds_of(options: Options) -> Bounds
    requires { known_unit options.unit ≡ true }
    ensures { result ≡ bounds_of options }
{
    let limit = options.limit;
    Bounds {
        limit,
        size: unit_of(options.unit).bound(),
    }
}

// Walks the mesh that is laid out.
fn walk_by(
    engine: Engine,
    w: &mut [u32],
    p: &mut [f32],
    q: &mut [f64],
    extent: Extent,
    target: usize,
    bounds: Bounds,
) -> Walked
    requires { Walkable extent.v extent.f w.old p.old q.old }
    ensures { WalkedBy engine extent.v extent.f target bounds.limit bounds.size w.old p.old q.old w.new p.new q.new result }
{
    match engine {
        Engine::Plain => plainwalk::plain_walk(w, p, q, extent, target, bounds),
        Engine::Heap => heapwalk::heap_walk(w, p, q, extent, target, bounds),
    }
}

// Lists the folds that a walk has written down, as far as there is room.
fn list_folds(w: &[u32], extent: Extent, made: usize, folds: &mut [u32])
    requires fact_1 { Room extent.v extent.f w.now }
    requires fact_2 { made ≤ extent.f }
    ensures { folds.new ≡ listed (folds_in extent.v extent.f w.now made) folds.old }
{
    let from = memory::folds_from(extent);
    let n = folds.len().min(2 * made);
    for i in 0..n {
        folds[i] = w[from + i];
    }
}

// Lays a mesh out, walks it and lists its folds.
pub fn walked(
    engine: Engine,
    points: &[f32],
    faces: &[u32],
    margin: &[u32],
    options: Options,
    w: &mut [u32],
    p: &mut [f32],
    q: &mut [f64],
    folds: &mut [u32],
) -> Came
    requires fact_1 { Layable (length points.now / 3) (length faces.now / 3) points.now faces.now margin.now w.old p.old q.old }
    requires fact_2 { known_unit options.unit ≡ true }
    ensures { MeshWalked engine (input_walked points.now faces.now margin.now options) w.old p.old q.old w.new p.new q.new folds.old folds.new result }
{
    let extent = Extent {
        v: points.len() / 3,
        f: faces.len() / 3,
    };
    let bounds = bounds_of(options);
    let target = bits::cut::target(options.ratio, extent.f as u32) as usize;
    let fixed = laid_out(points, faces, margin, options.preserve, w, p, q, extent);
    let walked = walk_by(engine, w, p, q, extent, target, bounds);
    list_folds(w, extent, walked.folds, folds);
    let closed = walked.closed;
    Came {
        target,
        fixed,
        folds: walked.folds,
        closed,
    }
}
