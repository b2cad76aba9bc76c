// The checks of an input, in their order: answer numbers 1 to 9, 12 and 24.
// Tests of sizes, floats and faces are joined by `|` and `&`: each looks at all its parts, none of which can fail, and answers for NaN too.
#![tactic(auto)]

ghost use Rattle.std.specs.Prelude.{◌≡◌, ◌+◌, ◌*◌, ◌/◌, ◌≤◌, ◌<◌, cond, length, Ok, Err, position};
ghost use Rattle.walk.specs.Faces.{faces_of, face_at};
ghost use Rattle.meaning.specs.declared.Refusal.TheVariants.{BadCoordinate};
ghost use Rattle.meaning.specs.Answers.{uneven, large, short, empty, bad_ratio, bad_limit, bad_coordinate, outside, doubled, bad_entry, face_verdict, margin_verdict, verdict_of};
ghost use Rattle.lists.specs.Lists.{some, first_of};

use meaning::{Options, Refusal, Rooms, Task};
use units::Unit;
use walk::Face;

// A refusal where a test holds.
fn refuse_if(test: bool, refusal: Refusal) -> Result<(), Refusal>
    ensures { result ≡ cond test (Err refusal) (Ok tt) }
{
    if test { Err(refusal) } else { Ok(()) }
}

// 1: a list's length is no multiple of 3.
fn is_uneven(points: usize, faces: usize) -> bool
    ensures { result ≡ uneven points faces }
{
    (points % 3 != 0) | (faces % 3 != 0)
}

// 2: too many points or faces.
fn is_large(v: usize, f: usize) -> bool
    ensures { result ≡ large v f }
{
    (v > 65536) | (f > 131072)
}

// 3: an output or work buffer is shorter than stated.
fn is_short(v: usize, f: usize, rooms: Rooms) -> bool
    requires { (v ≤ 65536) × (f ≤ 131072) }
    ensures { result ≡ short v f rooms }
{
    (rooms.points < 3 * v)
        | (rooms.faces < 3 * f)
        | (rooms.u32s < 16 * v + 32 * f)
        | (rooms.f32s < 4 * v + 12 * f)
        | (rooms.f64s < 16 * v + 6 * f)
}

// 4: there are no points or no faces.
fn is_empty(v: usize, f: usize) -> bool
    ensures { result ≡ empty v f }
{
    (v == 0) | (f == 0)
}

// 5: the ratio is NaN, below 0 or above 1.
fn bad_ratio(ratio: f32) -> bool
    ensures { result ≡ bad_ratio ratio }
{
    !((0.0 <= ratio) & (ratio <= 1.0))
}

// 6: the length limit is NaN.
fn bad_limit(limit: Option<f32>) -> bool
    ensures { result ≡ bad_limit limit }
{
    limit.is_some_and(|most| most.is_nan())
}

// 7: a coordinate is not finite, or its size is above the bound.
fn bad_coordinate(bound: f32, x: f32) -> bool
    ensures { result ≡ bad_coordinate bound x }
{
    let infinity: f32 = 1.0 / 0.0;
    !((x < infinity) & (-infinity < x) & (x <= bound) & (-bound <= x))
}

// The place of the first such coordinate.
fn first_bad(bound: f32, points: &[f32]) -> Option<usize>
    ensures { result ≡ position (bad_coordinate bound) points.now }
{
    points.iter().position(|x| bad_coordinate(bound, *x))
}

// 7: the first bad coordinate counts.
fn check_coordinates(bound: f32, points: &[f32]) -> Result<(), Refusal>
    requires { length points.now / 3 ≤ 65536 }
    ensures { result ≡ cond (some (bad_coordinate bound) points.now) (Err (BadCoordinate (first_of (bad_coordinate bound) points.now))) (Ok tt) }
{
    match first_bad(bound, points) {
        Some(k) => Err(Refusal::BadCoordinate(k as u32)),
        None => Ok(()),
    }
}

// Face number k of a list of point numbers.
fn face_at(faces: &[u32], k: usize) -> Face
    requires { 3 * k + 3 ≤ length faces.now }
    ensures { result ≡ face_at faces.now k }
{
    Face {
        a: faces[3 * k],
        b: faces[3 * k + 1],
        c: faces[3 * k + 2],
    }
}

// 8: a face names a point not below v.
fn is_outside(v: u32, f: Face) -> bool
    ensures { result ≡ outside v f }
{
    !((f.a < v) & (f.b < v) & (f.c < v))
}

// 9: a face names one point twice.
fn is_doubled(f: Face) -> bool
    ensures { result ≡ doubled f }
{
    (f.a == f.b) | (f.b == f.c) | (f.c == f.a)
}

// 8 and 9: the lowest bad face counts, and within it 8 comes first.
fn check_faces(v: u32, faces: &[u32]) -> Result<(), Refusal>
    requires { length faces.now / 3 ≤ 131072 }
    ensures { result ≡ face_verdict v 0 (faces_of (length faces.now / 3) faces.now) }
{
    for k in 0..faces.len() / 3 {
        let face = face_at(faces, k);
        refuse_if(is_outside(v, face), Refusal::PointOutside(k as u32))?;
        refuse_if(is_doubled(face), Refusal::PointTwice(k as u32))?;
    }
    Ok(())
}

// 12: the margin's entry k is not below v, or not above the entry before it.
fn bad_entry(v: u32, margin: &[u32], k: usize) -> bool
    requires { k < length margin.now }
    ensures { result ≡ bad_entry v margin.now k }
{
    margin[k] >= v || (k > 0 && margin[k] <= margin[k - 1])
}

// 12: the margin's first bad entry counts.
fn check_margin(v: u32, margin: &[u32]) -> Result<(), Refusal>
    requires { v ≤ 65536 }
    ensures { result ≡ margin_verdict v margin.now }
{
    for k in 0..margin.len() {
        refuse_if(bad_entry(v, margin, k), Refusal::BadMargin(k as u32))?;
    }
    Ok(())
}

// What is done with an input, or the first of the numbers 1 to 9, 12 and 24 that holds, in their order.
// Ratio zero is answered after 7 and before 8, faces and margin unchecked.
#[tactic(auto, unfolding(meaning::specs::Answers::verdict_of, meaning::specs::Answers::contents_verdict))]
pub fn verdict_of(
    points: &[f32],
    faces: &[u32],
    margin: &[u32],
    rooms: Rooms,
    options: Options,
) -> Result<Task, Refusal>
    ensures { result ≡ verdict_of (record { points = points.now; faces = faces.now; margin = margin.now; rooms = rooms; options = options }) }
{
    let v = points.len() / 3;
    let f = faces.len() / 3;
    refuse_if(is_uneven(points.len(), faces.len()), Refusal::UnevenList)?;
    refuse_if(is_large(v, f), Refusal::TooLarge)?;
    refuse_if(is_short(v, f, rooms), Refusal::ShortBuffer)?;
    refuse_if(is_empty(v, f), Refusal::EmptyMesh)?;
    refuse_if(bad_ratio(options.ratio), Refusal::BadRatio)?;
    refuse_if(bad_limit(options.limit), Refusal::BadLimit)?;
    let unit = Unit::try_from(options.unit)?;
    check_coordinates(unit.bound(), points)?;
    if options.ratio == 0.0 {
        return Ok(Task::Copied);
    }
    check_faces(v as u32, faces)?;
    check_margin(v as u32, margin)?;
    Ok(Task::Admitted)
}
