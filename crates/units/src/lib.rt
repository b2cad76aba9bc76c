// What a scan is measured in: a unit's number, and the bound on the size of its coordinates.
#![tactic(auto)]

ghost use Rattle.std.specs.Prelude.{◌≡◌, true};
ghost use Rattle.units.specs.Units.{unit_number, unit_bound, known_unit, unit_of, ReadsUnit};

// What the coordinates of a scan are in.
#[derive(Clone, Copy, Debug, PartialEq, Eq)]
pub enum Unit {
    Millimetre,
    Micrometre,
}

// A number that is no unit's. 24 refuses it.
#[derive(Clone, Copy, Debug, PartialEq, Eq)]
pub struct UnknownUnit(pub u32);

impl Unit {
    // Its bound: no coordinate may be larger in size.
    pub fn bound(self) -> f32
        ensures { result ≡ unit_bound self }
    {
        match self {
            Unit::Millimetre => 1024.0,
            Unit::Micrometre => 1048576.0,
        }
    }
}

// A unit's number, as files have it and callers give it.
impl From<Unit> for u32 {
    ghost from_gives = { λ unit number. number ≡ unit_number unit };

    fn from(unit: Unit) -> u32 {
        match unit {
            Unit::Millimetre => 1,
            Unit::Micrometre => 2,
        }
    }
}

// The unit with a number.
impl TryFrom<u32> for Unit {
    type Error = UnknownUnit;

    ghost try_from_gives = { ReadsUnit };

    fn try_from(number: u32) -> Result<Self, UnknownUnit> {
        match number {
            1 => Ok(Unit::Millimetre),
            2 => Ok(Unit::Micrometre),
            _ => Err(UnknownUnit(number)),
        }
    }
}

// The unit of a number that is one's.
pub fn unit_of(number: u32) -> Unit
    requires { known_unit number ≡ true }
    ensures { result ≡ unit_of number }
{
    Unit::try_from(number).unwrap()
}
