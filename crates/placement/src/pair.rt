// A pair (keep, remove): its quadric, length, place and cost, and whether it may be opened.
ghost use Rattle.std.specs.Prelude.{◌≡◌};
ghost use Rattle.placement.specs.Choices.{above_limit};
ghost use Rattle.placement.specs.Pairs.{pair_quadric, pair_length, pair_choice, pair_place, pair_cost, eligible, pair_candidate};

use crate::place::{Choice, choose};
use crate::{Kind, is_above};
use geometry::{Point, Quadric};

// What the thinning keeps of a point.
#[derive(Clone, Copy)]
pub struct Vertex {
    pub point: Point,
    pub quadric: Quadric,
    pub kind: Kind,
}

// Keep's quadric plus remove's.
pub fn pair_quadric(keep: Vertex, remove: Vertex) -> Quadric
    ensures { result ≡ pair_quadric keep remove }
{
    keep.quadric.sum(remove.quadric)
}

// The norm of keep's point less remove's.
pub fn pair_length(keep: Vertex, remove: Vertex) -> f32
    ensures { result ≡ pair_length keep remove }
{
    keep.point.difference(remove.point).norm()
}

// Whether a pair is longer than the limit. Its length is worked out only where there is one.
fn is_too_long(keep: Vertex, remove: Vertex, limit: Option<f32>) -> bool
    ensures { result ≡ above_limit (pair_length keep remove) limit }
{
    limit.is_some() && is_above(pair_length(keep, remove), limit)
}

// The place of a pair with the error there.
fn pair_choice(keep: Vertex, remove: Vertex, bound: f32) -> Choice
    ensures { result ≡ pair_choice bound (pair_length keep remove) keep remove }
{
    choose(pair_quadric(keep, remove), keep.point, remove.point, bound)
}

// The place of a pair.
pub fn pair_place(keep: Vertex, remove: Vertex, bound: f32) -> Point
    ensures { result ≡ pair_place bound keep remove }
{
    pair_choice(keep, remove, bound).place
}

// The error at the place of a pair.
pub fn pair_cost(keep: Vertex, remove: Vertex, bound: f32) -> f64
    ensures { result ≡ pair_cost bound keep remove }
{
    pair_choice(keep, remove, bound).cost
}

// The place and the cost of a pair that may be opened. A pair that is refused for its ends or its length isn't solved.
pub fn pair_candidate(
    keep: Vertex,
    remove: Vertex,
    limit: Option<f32>,
    bound: f32,
) -> Option<Choice>
    ensures { result ≡ pair_candidate limit bound keep remove }
{
    if keep.kind.is_fixed() | remove.kind.is_fixed() {
        return None;
    }
    if is_too_long(keep, remove, limit) {
        return None;
    }
    let choice = pair_choice(keep, remove, bound);
    choice.cost.is_finite().then_some(choice)
}

// Whether a pair may be opened.
pub fn pair_eligible(keep: Vertex, remove: Vertex, limit: Option<f32>, bound: f32) -> bool
    ensures { result ≡ eligible limit bound keep remove }
{
    pair_candidate(keep, remove, limit, bound).is_some()
}
