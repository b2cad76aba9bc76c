// The public entry: a mesh thinned in memory that the caller lends, by the heap walk or by the plain walk.
#![tactic(auto)]

ghost use Rattle.std.specs.Prelude.{◌≡◌, ◌+◌, ◌*◌, ◌/◌, ◌≤◌, length, Ok};
ghost use Rattle.mesh.specs.Clauses.Chains.{Tidy};
ghost use Rattle.meaning.specs.declared.Task.TheVariants.{Admitted};
ghost use Rattle.meaning.specs.Answers.{number_of, place_of, verdict_of};
ghost use Rattle.meaning.specs.Outcome as Outcomes;
ghost use Rattle.meaning.specs.Call.{lent, input_of, Leaves};
ghost use Rattle.walking.specs.Clauses.{Working};
ghost use Rattle.thinning.specs.Made.{ThinnedBy};
ghost use Rattle.thinning.specs.Told.{options_of};
ghost use Rattle.thinning.specs.Clauses.{Measured, Standing, copy_of, Zeroed, outcome_in, Finished};

use meaning::{Answer, Options, Refusal, Rooms, Task};
use memory::Extent;
use walk::Closings;
use walking::{Came, Engine, walked};

// The options of a call, by plain numbers: the limit counts only where the call is limited.
pub fn options_of(unit: u32, ratio: f32, preserve: bool, limited: bool, limit: f32) -> Options
    ensures { result ≡ options_of unit ratio preserve limited limit }
{
    Options {
        unit,
        ratio,
        preserve,
        limit: limited.then_some(limit),
    }
}

// An answer without a mesh has zeros for it.
fn without_mesh(number: u32, place: u32, closed: Closings) -> Answer
    ensures { result ≡ Outcomes.without_mesh number place closed }
{
    Answer {
        number: number,
        place: place,
        points: 0,
        faces: 0,
        folds: 0,
        closed,
    }
}

// A refusal before the walk, told by its number and place.
fn refusal(why: Refusal) -> Answer
    ensures { result ≡ Outcomes.refusal (number_of why) (place_of why) }
{
    without_mesh(why.number(), why.place(), Closings::default())
}

// 10 where points are fixed, and else 11; and why pairs were closed.
fn stuck(fixed: usize, closed: Closings) -> Answer
    requires { fixed ≤ 65536 }
    ensures { result ≡ Outcomes.stuck_answer fixed closed }
{
    if 0 < fixed {
        without_mesh(10, fixed as u32, closed)
    } else {
        without_mesh(11, 0, closed)
    }
}

// Zeros to the stated part of the work memory.
fn clear(w: &mut [u32], p: &mut [f32], q: &mut [f64], extent: Extent)
    requires { Working extent.v extent.f w.old p.old q.old }
    ensures { Zeroed extent.v extent.f w.old p.old q.old w.new p.new q.new }
{
    w[..16 * extent.v + 32 * extent.f].fill(0);
    p[..4 * extent.v + 12 * extent.f].fill(0.0);
    q[..16 * extent.v + 6 * extent.f].fill(0.0);
}

// Ratio zero: the mesh is copied unchanged.
fn copied(
    points: &[f32],
    faces: &[u32],
    out_points: &mut [f32],
    out_faces: &mut [u32],
    w: &mut [u32],
    p: &mut [f32],
    q: &mut [f64],
) -> Answer
    requires { Measured (length points.now / 3) (length faces.now / 3) points.now faces.now (lent out_points.old out_faces.old w.old p.old q.old) }
    ensures { Leaves (length points.now / 3) (length faces.now / 3) (copy_of (length points.now / 3) (length faces.now / 3) points.now faces.now) (lent out_points.old out_faces.old w.old p.old q.old) (lent out_points.new out_faces.new w.new p.new q.new) result }
{
    let extent = Extent {
        v: points.len() / 3,
        f: faces.len() / 3,
    };
    output::copy_mesh(points, faces, out_points, out_faces);
    clear(w, p, q, extent);
    Answer {
        number: 0,
        place: 0,
        points: extent.v as u32,
        faces: extent.f as u32,
        folds: 0,
        closed: Closings::default(),
    }
}

// Writes the mesh that the walk has left, or nothing where the walk is stuck: no fold made and more faces than the target.
fn answered(
    came: Came,
    w: &mut [u32],
    p: &[f32],
    extent: Extent,
    out_points: &mut [f32],
    out_faces: &mut [u32],
) -> Answer
    requires fact_1 { Tidy extent.v extent.f w.old }
    requires fact_2 { 3 * extent.v ≤ length p.now }
    requires fact_3 { 3 * extent.v ≤ length out_points.old }
    requires fact_4 { 3 * extent.f ≤ length out_faces.old }
    requires fact_5 { (came.fixed ≤ extent.v) × (came.folds ≤ extent.f) }
    ensures { Finished extent.v extent.f (outcome_in extent.f came w.old p.now) w.old out_points.old out_faces.old w.new out_points.new out_faces.new result }
{
    let closed = came.closed;
    if (came.folds == 0) & (came.target < extent.f) {
        return stuck(came.fixed, closed);
    }
    let counts = output::write_mesh(w, p, extent, out_points, out_faces);
    Answer {
        number: 0,
        place: 0,
        points: counts.points as u32,
        faces: counts.faces as u32,
        folds: came.folds as u32,
        closed,
    }
}

// Answers for the mesh that the walk has left, and clears the work memory.
fn finished(
    came: Came,
    extent: Extent,
    out_points: &mut [f32],
    out_faces: &mut [u32],
    w: &mut [u32],
    p: &mut [f32],
    q: &mut [f64],
) -> Answer
    requires { Standing extent.v extent.f came (lent out_points.old out_faces.old w.old p.old q.old) }
    ensures { Leaves extent.v extent.f (outcome_in extent.f came w.old p.old) (lent out_points.old out_faces.old w.old p.old q.old) (lent out_points.new out_faces.new w.new p.new q.new) result }
{
    let answer = answered(came, w, p, extent, out_points, out_faces);
    clear(w, p, q, extent);
    answer
}

// A mesh that is admitted to the walk: walked, its folds listed, and written.
fn admitted(
    engine: Engine,
    points: &[f32],
    faces: &[u32],
    margin: &[u32],
    options: Options,
    out_points: &mut [f32],
    out_faces: &mut [u32],
    w: &mut [u32],
    p: &mut [f32],
    q: &mut [f64],
    folds: &mut [u32],
) -> Answer
    requires { verdict_of (input_of points.now faces.now margin.now options (lent out_points.old out_faces.old w.old p.old q.old)) ≡ Ok Admitted }
    ensures { ThinnedBy engine (input_of points.now faces.now margin.now options (lent out_points.old out_faces.old w.old p.old q.old)) (lent out_points.old out_faces.old w.old p.old q.old) (lent out_points.new out_faces.new w.new p.new q.new) folds.old folds.new result }
{
    let came = walked(engine, points, faces, margin, options, w, p, q, folds);
    let extent = Extent {
        v: points.len() / 3,
        f: faces.len() / 3,
    };
    finished(came, extent, out_points, out_faces, w, p, q)
}

// Thins a mesh and lists its folds: keep and remove of each, as far as there is room. The margin's points stay where they are.
// For any input the answer and every lent cell are those of documents 01 and 02.
pub fn thin(
    engine: Engine,
    points: &[f32],
    faces: &[u32],
    margin: &[u32],
    options: Options,
    out_points: &mut [f32],
    out_faces: &mut [u32],
    work_u32: &mut [u32],
    work_f32: &mut [f32],
    work_f64: &mut [f64],
    folds: &mut [u32],
) -> Answer
    ensures { ThinnedBy engine (input_of points.now faces.now margin.now options (lent out_points.old out_faces.old work_u32.old work_f32.old work_f64.old)) (lent out_points.old out_faces.old work_u32.old work_f32.old work_f64.old) (lent out_points.new out_faces.new work_u32.new work_f32.new work_f64.new) folds.old folds.new result }
{
    let rooms = Rooms {
        points: out_points.len(),
        faces: out_faces.len(),
        u32s: work_u32.len(),
        f32s: work_f32.len(),
        f64s: work_f64.len(),
    };
    match checks::verdict_of(points, faces, margin, rooms, options) {
        Err(why) => refusal(why),
        Ok(Task::Copied) => copied(
            points, faces, out_points, out_faces, work_u32, work_f32, work_f64,
        ),
        Ok(Task::Admitted) => admitted(
            engine, points, faces, margin, options, out_points, out_faces, work_u32, work_f32,
            work_f64, folds,
        ),
    }
}
