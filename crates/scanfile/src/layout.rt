// A file's records, where things stand in it, and its limits (specs/Layout.antt).
ghost use Rattle.std.specs.Prelude.{◌≡◌};
ghost use Rattle.scanfile.specs.Layout.{kind_number};

// The records, by their kinds' numbers: three in this order, and then the margin or none.
#[derive(Clone, Copy, PartialEq, Eq, Debug)]
pub enum RecordKind {
    Options = 1,
    Points = 2,
    Faces = 3,
    Margin = 4,
}

impl From<RecordKind> for u32 {
    ghost from_gives = { λ kind n. n ≡ kind_number kind };

    fn from(kind: RecordKind) -> u32 {
        kind as u32
    }
}

// The most points and faces.
pub const MOST_POINTS: usize = 128;

pub const MOST_FACES: usize = 256;

// The most points of the margin.
pub const MOST_MARGIN: usize = 128;

// The first record's payload.
pub const UNIT_AT: usize = 6;

pub const FLAGS_AT: usize = 8;

pub const RATIO_AT: usize = 10;

pub const LIMIT_AT: usize = 14;

// The second record, and its payload.
pub const SECOND_AT: usize = 18;

pub const POINTS_AT: usize = 24;
