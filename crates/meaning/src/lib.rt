// Document 01 as definitions: what a call is given, what it answers and what it leaves. In code it has only the values that go in and out.
#![tactic(auto)]

ghost use Rattle.std.specs.Prelude.{◌≡◌};
ghost use Rattle.meaning.specs.Answers.{number_of, place_of};

use walk::Closings;

// How a mesh is thinned: by which part, with border points held or not, and up to which length of a pair; and in which unit it is, by a
// number that may be no unit's, which 24 refuses.
#[derive(Clone, Copy)]
pub struct Options {
    pub unit: u32,
    pub ratio: f32,
    pub preserve: bool,
    pub limit: Option<f32>,
}

// How many cells each lent buffer has: the two outputs, and the work memory of each type.
#[derive(Clone, Copy)]
pub struct Rooms {
    pub points: usize,
    pub faces: usize,
    pub u32s: usize,
    pub f32s: usize,
    pub f64s: usize,
}

// Why an input is refused, in the order of the numbers that answer it. A place is the number of a coordinate, a face or an entry of the margin.
#[derive(Clone, Copy, PartialEq, Eq, Debug)]
pub enum Refusal {
    UnevenList,
    TooLarge,
    ShortBuffer,
    EmptyMesh,
    BadRatio,
    BadLimit,
    BadCoordinate(u32),
    PointOutside(u32),
    PointTwice(u32),
    BadMargin(u32),
    UnknownUnit,
}

impl Refusal {
    // The number that answers it.
    pub fn number(self) -> u32
        ensures { result ≡ number_of self }
    {
        match self {
            Refusal::UnevenList => 1,
            Refusal::TooLarge => 2,
            Refusal::ShortBuffer => 3,
            Refusal::EmptyMesh => 4,
            Refusal::BadRatio => 5,
            Refusal::BadLimit => 6,
            Refusal::BadCoordinate(_) => 7,
            Refusal::PointOutside(_) => 8,
            Refusal::PointTwice(_) => 9,
            Refusal::BadMargin(_) => 12,
            Refusal::UnknownUnit => 24,
        }
    }

    // Its place, which is 0 where it has none.
    pub fn place(self) -> u32
        ensures { result ≡ place_of self }
    {
        match self {
            Refusal::BadCoordinate(place)
            | Refusal::PointOutside(place)
            | Refusal::PointTwice(place)
            | Refusal::BadMargin(place) => place,
            _ => 0,
        }
    }
}

// A number that is no unit's is refused by 24.
impl From<units::UnknownUnit> for Refusal {
    ghost use Rattle.meaning.specs.declared.Refusal.TheVariants.{UnknownUnit};

    ghost from_gives = { λ unknown refusal. refusal ≡ UnknownUnit };

    fn from(_unknown: units::UnknownUnit) -> Refusal {
        Self::UnknownUnit
    }
}

// What is done with an input that is not refused: it is copied as it is (ratio zero), or admitted to the walk.
#[derive(Clone, Copy, PartialEq, Eq, Debug)]
pub enum Task {
    Copied,
    Admitted,
}

// What a call answers: a number and its place; on 0 the points and faces written and the folds made; and on 0, 10 and 11 the pairs closed by reason.
#[derive(Clone, Copy)]
pub struct Answer {
    pub number: u32,
    pub place: u32,
    pub points: u32,
    pub faces: u32,
    pub folds: u32,
    pub closed: Closings,
}
