// Faces and pairs of points, by value, and in specs/ the meaning of the mesh, the fold and the walk over them.
#![tactic(auto)]

ghost use Rattle.std.specs.Prelude.{◌≡◌};
ghost use Rattle.walk.specs.Faces.{holds};
ghost use Rattle.walk.specs.Clauses.{with_reason, RoomToCount};

// A triangle: the numbers of its three points, in order.
#[derive(Clone, Copy, PartialEq, Eq)]
pub struct Face {
    pub a: u32,
    pub b: u32,
    pub c: u32,
}

impl Face {
    // Whether the face holds a point.
    pub fn holds(self, x: u32) -> bool
        ensures { result ≡ holds x self }
    {
        x == self.a || x == self.b || x == self.c
    }
}

// Two points that may be folded into one: the one that stays and the one that goes.
#[derive(Clone, Copy, PartialEq, Eq)]
pub struct Pair {
    pub keep: u32,
    pub remove: u32,
}

// Why a pair is not folded: its points aren't linked as they must be, or the fold squashes a face or turns one over. A face is told by its number in the input.
#[derive(Clone, Copy, PartialEq, Eq)]
pub enum Reason {
    NotLinked,
    Squashed(usize),
    TurnedOver(usize),
}

// How many pairs a walk has closed for each reason: at first none.
#[derive(Clone, Copy, Default, PartialEq, Eq)]
pub struct Closings {
    pub unlinked: u64,
    pub squashed: u64,
    pub turned: u64,
}

impl Closings {
    // One pair more is closed, for a reason.
    pub fn with(self, reason: Reason) -> Closings
        requires { RoomToCount self }
        ensures { result ≡ with_reason self reason }
    {
        match reason {
            Reason::NotLinked => Closings {
                unlinked: self.unlinked + 1,
                ..self
            },
            Reason::Squashed(_) => Closings {
                squashed: self.squashed + 1,
                ..self
            },
            Reason::TurnedOver(_) => Closings {
                turned: self.turned + 1,
                ..self
            },
        }
    }
}
