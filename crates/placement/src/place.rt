// Where a pair's point goes: the solved point if it may stand, else the cheapest of the ends and the middle.
ghost use Rattle.std.specs.Prelude.{◌≡◌, true};
ghost use Rattle.std.specs.Float.{binary32};
ghost use Rattle.std.specs.Float.Ieee.{mul, le};
ghost use Rattle.geometry.specs.Points.{difference as difference_of, norm as norm_of};
ghost use Rattle.placement.specs.Places.{two, solved_part, solved, longer_of, is_in_size, stands, tested as tested_of, with_error, cheaper_choice, fallback as fallback_of, place_of};

use crate::error::error_at;
use crate::inverse::inverse;
use geometry::{Point, Quadric};

// The least length that the reach of a pair is taken from: 2^-23, Rust's f32::EPSILON.
const LEAST: f32 = 1.0 / 8388608.0;

// The largest square of a length that decides a distance: four times a larger one might not be finite.
const LARGEST: f32 = 1.0e30;

// A place and the error there.
#[derive(Clone, Copy)]
pub struct Choice {
    pub place: Point,
    pub cost: f64,
}

// A part of the solved point: a row of the inverse, negated, times the first three of the last column.
fn solved_part(row: [f64; 3], q: Quadric) -> f32
    ensures { result ≡ solved_part row q }
{
    bits::narrow::narrow((-row[0] * q.m14 + -row[1] * q.m24) + -row[2] * q.m34)
}

// The solved point, before it is tested.
pub fn solve(q: Quadric) -> Option<Point>
    ensures { result ≡ solved q }
{
    let rows = inverse(
        [q.m11, q.m12, q.m13],
        [q.m12, q.m22, q.m23],
        [q.m13, q.m23, q.m33],
    )?;
    Some(Point {
        x: solved_part(rows.first, q),
        y: solved_part(rows.second, q),
        z: solved_part(rows.third, q),
    })
}

// Whether a part is at most the bound in size.
fn in_size(x: f32, bound: f32) -> bool
    ensures { result ≡ is_in_size bound x }
{
    (-bound <= x) & (x <= bound)
}

// The longer of a pair's length and 2^-23, which is also taken for a NaN.
fn longer(length: f32) -> f32
    ensures { result ≡ longer_of length }
{
    if length > LEAST { length } else { LEAST }
}

// Whether the squares of two ways show that the one is at most twice the length of the other: four times a square is exact, and its root is
// twice the root.
fn is_surely_near(way: Point, other: Point) -> bool
    ensures { result ≡ true → le (norm_of way) (mul binary32 two (longer_of (norm_of other))) ≡ true }
{
    let square = other.dot(other);
    (way.dot(way) <= 4.0 * square) & (square <= LARGEST)
}

// Whether a way is at most twice the length of another, which counts as 2^-23 at least. Roots take long, so they are taken only where the
// squares leave it open.
fn is_near(way: Point, other: Point) -> bool
    ensures { result ≡ le (norm_of way) (mul binary32 two (longer_of (norm_of other))) }
{
    if is_surely_near(way, other) {
        return true;
    }
    way.norm() <= 2.0 * longer(other.norm())
}

// Whether a solved point may stand: finite, of a size within the bound, and near keep, by the way from one end of the pair to the other.
fn may_stand(p: Point, keep: Point, apart: Point, bound: f32) -> bool
    ensures { result ≡ stands bound (norm_of apart) keep p }
{
    if p.all_finite() & in_size(p.x, bound) & in_size(p.y, bound) & in_size(p.z, bound) {
        is_near(p.difference(keep), apart)
    } else {
        false
    }
}

// A solved point that may stand, or none.
fn tested(solved: Option<Point>, keep: Point, apart: Point, bound: f32) -> Option<Point>
    ensures { result ≡ tested_of bound (norm_of apart) keep solved }
{
    solved.filter(|p| may_stand(*p, keep, apart, bound))
}

// A place with the error there.
fn with_error(q: Quadric, place: Point) -> Choice
    ensures { result ≡ with_error q place }
{
    Choice {
        place,
        cost: error_at(q, place),
    }
}

// The cheaper of two by the order of costs, the first on equals. An error that is a NaN has a key above all others, where Rust's
// total_cmp would go by its sign, which no operation fixes. No admitted mesh has one: on the way every error that is compared is finite
// (pairs-finite, crates/promises/proofs/Errors.antt).
fn cheaper(first: Choice, second: Choice) -> Choice
    ensures { result ≡ cheaper_choice first second }
{
    if bits::order::order(second.cost) < bits::order::order(first.cost) {
        second
    } else {
        first
    }
}

// The cheapest of keep's point, remove's point and the middle, the earliest on equals.
fn fallback(q: Quadric, keep: Point, remove: Point) -> Choice
    ensures { result ≡ with_error q (fallback_of q keep remove) }
{
    let ends = cheaper(with_error(q, keep), with_error(q, remove));
    cheaper(ends, with_error(q, keep.middle(remove)))
}

// The place of a pair with the error there.
pub fn choose(q: Quadric, keep: Point, remove: Point, bound: f32) -> Choice
    ensures { result ≡ with_error q (place_of bound (norm_of (difference_of keep remove)) q keep remove) }
{
    match tested(solve(q), keep, keep.difference(remove), bound) {
        Some(place) => with_error(q, place),
        None => fallback(q, keep, remove),
    }
}
