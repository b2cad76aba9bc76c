// Where the point of a pair goes, what the pair costs, and whether it may be opened.
#![tactic(auto)]

pub mod error;
pub mod inverse;
pub mod pair;
pub mod place;

ghost use Rattle.std.specs.Prelude.{◌≡◌};
ghost use Rattle.placement.specs.Choices.{kind_number, kind_of, fixed, above_limit};

use geometry::Point;

// Whether a point may move: it is free, or fixed, on the border or as a margin point.
#[derive(Clone, Copy)]
pub enum Kind {
    Free,
    Border,
    Margin,
}

// What bounds the pairs of a walk: the limit on a pair's length, where there is one, and the bound on the size of a coordinate.
#[derive(Clone, Copy)]
pub struct Bounds {
    pub limit: Option<f32>,
    pub size: f32,
}

// A pair that may be folded, by the numbers of its points, and where keep goes.
#[derive(Clone, Copy)]
pub struct Fold {
    pub keep: u32,
    pub remove: u32,
    pub place: Point,
}

impl Kind {
    // Whether a point of this kind is fixed.
    pub fn is_fixed(self) -> bool
        ensures { result ≡ fixed self }
    {
        matches!(self, Kind::Border | Kind::Margin)
    }
}

// A kind's number, as memory holds it.
impl From<Kind> for u32 {
    ghost from_gives = { λ kind number. number ≡ kind_number kind };

    fn from(kind: Kind) -> u32 {
        match kind {
            Kind::Free => 0,
            Kind::Border => 1,
            Kind::Margin => 2,
        }
    }
}

// The kind that a number stands for: 0 is free, 1 is border, and any other is margin.
impl From<u32> for Kind {
    ghost from_gives = { λ number kind. kind ≡ kind_of number };

    fn from(number: u32) -> Kind {
        match number {
            0 => Kind::Free,
            1 => Kind::Border,
            _ => Kind::Margin,
        }
    }
}

// Whether a length is above the limit, where there is one.
pub fn is_above(length: f32, limit: Option<f32>) -> bool
    ensures { result ≡ above_limit length limit }
{
    limit.is_some_and(|most| length > most)
}
