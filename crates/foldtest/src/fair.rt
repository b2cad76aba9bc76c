// What a fold does to one face.
ghost use Rattle.std.specs.Prelude.{◌≡◌, ◌+◌, ◌*◌, ◌<◌, length, true, false};
ghost use Rattle.geometry.specs.Points.{normal as normal_of};
ghost use Rattle.meaning.specs.Input.{point_at};
ghost use Rattle.walk.specs.FoldTest.{harm};
ghost use Rattle.meaning.specs.Arithmetic.{squashed_normals, turned_normals};
ghost use Rattle.foldtest.specs.Clauses.Fair.{Placed, squashed, turned, moved_at, squashed_at, turned_at};

use geometry::{Point, normal};
use memory::point_at;
use placement::Fold;
use walk::{Face, Reason};

// The least dot of two normals that decides by squares: half of a smaller one might not be exact.
const LEAST_DOT: f32 = 1.0e-27;

// The largest dot that does: with a larger one a product below might not be finite.
const MOST_DOT: f32 = 1.0e27;

// The square of a norm must be at most so many times the dot: 0.01 of the norms' product is then below the dot.
const TIMES_DOT: f32 = 16.0;

// The square before must be below so many times the square after, 2^30: 1e-6 of the norm before is then below the norm after.
const TIMES_AFTER: f32 = 1073741824.0;

// Where a point is after the fold.
fn moved(p: &[f32], x: u32, fold: Fold) -> Point
    requires { 3 * x + 2 < length p.now }
    ensures { result ≡ moved_at p.now fold.keep fold.remove fold.place x }
{
    if x == fold.keep {
        return fold.place;
    }
    if x == fold.remove {
        return fold.place;
    }
    point_at(p, x as usize)
}

// A face's normal before the fold.
fn normal_before(p: &[f32], face: Face) -> Point
    requires { Placed p.now face }
    ensures { result ≡ normal_of (point_at p.now face.a) (point_at p.now face.b) (point_at p.now face.c) }
{
    normal(
        point_at(p, face.a as usize),
        point_at(p, face.b as usize),
        point_at(p, face.c as usize),
    )
}

// A face's normal after the fold.
fn normal_after(p: &[f32], face: Face, fold: Fold) -> Point
    requires { Placed p.now face }
    ensures { result ≡ normal_of (moved_at p.now fold.keep fold.remove fold.place face.a) (moved_at p.now fold.keep fold.remove fold.place face.b) (moved_at p.now fold.keep fold.remove fold.place face.c) }
{
    normal(
        moved(p, face.a, fold),
        moved(p, face.b, fold),
        moved(p, face.c, fold),
    )
}

// Whether a face is squashed, by the norms of its normal before and after. A norm that is no number passes no test, so it counts as squashed.
fn is_squashed(before: f32, after: f32) -> bool
    ensures { result ≡ squashed before after }
{
    !(after > 0.000001 * before)
}

// Whether a face is turned over, by the norms and the dot of its normals before and after.
fn is_turned(before: f32, after: f32, dot: f32) -> bool
    ensures { result ≡ turned before after dot }
{
    !(dot > 0.01 * before * after)
}

// Whether the squares of a face's norms and the dot of its normals before and after show that it is neither squashed nor turned over. The
// products are exact, so no rounding counts.
fn is_surely_fair(before: Point, after: Point) -> bool
    ensures { result ≡ true → (squashed_normals before after ≡ false) × (turned_normals before after ≡ false) }
{
    let dot = before.dot(after);
    let most = TIMES_DOT * dot;
    let b = before.dot(before);
    let a = after.dot(after);
    (LEAST_DOT <= dot) & (dot <= MOST_DOT) & (a <= most) & (b <= most) & (b < TIMES_AFTER * a)
}

// What is told of the face of a number with these normals: squashed is asked before turned over. Roots take long, so the norms are worked out only
// where their squares leave it open, and each once.
fn judged(number: usize, before: Point, after: Point) -> Result<(), Reason>
    ensures { result ≡ harm number true (squashed_normals before after) (turned_normals before after) }
{
    if is_surely_fair(before, after) {
        return Ok(());
    }
    let b = before.norm();
    let a = after.norm();
    if is_squashed(b, a) {
        return Err(Reason::Squashed(number));
    }
    if is_turned(b, a, before.dot(after)) {
        return Err(Reason::TurnedOver(number));
    }
    Ok(())
}

// What the fold does to the face of a number.
pub fn tested_face(p: &[f32], number: usize, face: Face, fold: Fold) -> Result<(), Reason>
    requires { Placed p.now face }
    ensures { result ≡ harm number true (squashed_at p.now fold.keep fold.remove fold.place face) (turned_at p.now fold.keep fold.remove fold.place face) }
{
    judged(number, normal_before(p, face), normal_after(p, face, fold))
}
