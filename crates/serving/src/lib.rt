// One order of a call with many: thinned on its parts as if it were alone, and its answer told at its place.
#![tactic(auto)]

ghost use Rattle.std.specs.Prelude.{◌≡◌, length};
ghost use Rattle.meaning.specs.Call.{lent};
ghost use Rattle.thinning.specs.Told.{five_of, by_reason};
ghost use Rattle.orders.specs.Parts.{Within, replaced};
ghost use Rattle.serving.specs.Desks.{sources, desk, five_at, three_at};
ghost use Rattle.serving.specs.Clauses.{Fits, ThinnedInto, OrderDone};

use meaning::Answer;
use orders::Order;
use walking::Engine;

// An answer to five cells, and the pairs closed to three.
pub fn tell(five: &mut [u32], three: &mut [u64], r: Answer)
    requires five { length five.old ≡ 5 }
    requires three { length three.old ≡ 3 }
    ensures five { five.new ≡ five_of r }
    ensures three { three.new ≡ by_reason r }
{
    five.copy_from_slice(&[r.number, r.place, r.points, r.faces, r.folds]);
    let closed = r.closed;
    three.copy_from_slice(&[closed.unlinked, closed.squashed, closed.turned]);
}

// An answer at the place of its order in the two lists.
fn tell_at(answers: &mut [u32], closed: &mut [u64], place: usize, r: Answer)
    requires five_fit { Within (five_at place) answers.old }
    requires three_fit { Within (three_at place) closed.old }
    ensures { (answers.new ≡ replaced (five_at place) (five_of r) answers.old) × (closed.new ≡ replaced (three_at place) (by_reason r) closed.old) }
{
    let five = 5 * place;
    let three = 3 * place;
    tell(
        &mut answers[five..five + 5],
        &mut closed[three..three + 3],
        r,
    );
}

// Thins one order on its parts of the inputs, over its own parts of the outputs.
fn thin_into(
    order: Order,
    points: &[f32],
    faces: &[u32],
    margins: &[u32],
    out_points: &mut [f32],
    out_faces: &mut [u32],
    work_u32: &mut [u32],
    work_f32: &mut [f32],
    work_f64: &mut [f64],
) -> Answer
    requires fact_1 { Within order.points points.now }
    requires fact_2 { Within order.faces faces.now }
    requires fact_3 { Within order.margin margins.now }
    ensures { ThinnedInto (sources points.now faces.now margins.now) order (lent out_points.old out_faces.old work_u32.old work_f32.old work_f64.old) (lent out_points.new out_faces.new work_u32.new work_f32.new work_f64.new) result }
{
    let points_in = order.points;
    let faces_in = order.faces;
    let margin_in = order.margin;
    let a = points_in.from;
    let b = faces_in.from;
    let c = margin_in.from;
    let options = thinning::options_of(
        order.unit,
        order.ratio,
        order.preserve,
        order.limited,
        order.limit,
    );
    let mut folds = [0u32; 1];
    thinning::thin(
        Engine::Heap,
        &points[a..a + points_in.len],
        &faces[b..b + faces_in.len],
        &margins[c..c + margin_in.len],
        options,
        out_points,
        out_faces,
        work_u32,
        work_f32,
        work_f64,
        &mut folds,
    )
}

// Thins one order on its parts, and tells its answer at its place.
pub fn thin_order(
    order: Order,
    place: usize,
    points: &[f32],
    faces: &[u32],
    margins: &[u32],
    out_points: &mut [f32],
    out_faces: &mut [u32],
    work_u32: &mut [u32],
    work_f32: &mut [f32],
    work_f64: &mut [f64],
    answers: &mut [u32],
    closed: &mut [u64],
)
    requires { Fits (sources points.now faces.now margins.now) order place (desk (lent out_points.old out_faces.old work_u32.old work_f32.old work_f64.old) answers.old closed.old) }
    ensures { OrderDone (sources points.now faces.now margins.now) order place (desk (lent out_points.old out_faces.old work_u32.old work_f32.old work_f64.old) answers.old closed.old) (desk (lent out_points.new out_faces.new work_u32.new work_f32.new work_f64.new) answers.new closed.new) }
{
    let points_out = order.out_points;
    let faces_out = order.out_faces;
    let d = points_out.from;
    let e = faces_out.from;
    let r = thin_into(
        order,
        points,
        faces,
        margins,
        &mut out_points[d..d + points_out.len],
        &mut out_faces[e..e + faces_out.len],
        work_u32,
        work_f32,
        work_f64,
    );
    tell_at(answers, closed, place, r);
}
