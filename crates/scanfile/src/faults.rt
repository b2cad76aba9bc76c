// What a record is refused by, in the order of document 01, and for kind 4 of document 02.
ghost use Rattle.std.specs.Prelude.{◌≡◌, ◌≤◌, ◌<◌, length};
ghost use Rattle.scanfile.specs.declared.faults.Fault.TheVariants.{UnknownUnit};
ghost use Rattle.scanfile.specs.Layout.{kind_number, has_head};
ghost use Rattle.scanfile.specs.Faults.{fault_number, wrong_size, most_of, record_fault, options_fault, bad_file, at_place};

use crate::layout::{FLAGS_AT, MOST_FACES, MOST_MARGIN, MOST_POINTS, RecordKind, UNIT_AT};
use records::{HEAD_LENGTH, four_bytes, two_bytes};
use units::Unit;

// What a record, and so a file, is refused by. The numbers are document 01's.
#[derive(Clone, Copy, PartialEq, Eq, Debug)]
pub enum Fault {
    CutShort = 21,
    OtherKind = 22,
    WrongSize = 23,
    UnknownUnit = 24,
    BytesFollow = 25,
    UnknownFlag = 26,
    TooMany = 27,
}

impl Fault {
    // Its number, 21 to 27.
    pub fn number(self) -> u32
        ensures { result ≡ fault_number self }
    {
        self as u32
    }

    // A file that it refuses at a place.
    pub fn at(self, place: usize) -> BadFile
        requires { place < 4294967296 }
        ensures { result ≡ bad_file self place }
    {
        BadFile {
            fault: self,
            place: place as u32,
        }
    }
}

// A number that is no unit's.
impl From<units::UnknownUnit> for Fault {
    ghost from_gives = { λ _ fault. fault ≡ UnknownUnit };

    fn from(_number: units::UnknownUnit) -> Fault {
        Fault::UnknownUnit
    }
}

// A file that is refused: by what, and where.
#[derive(Clone, Copy, PartialEq, Eq, Debug)]
pub struct BadFile {
    pub fault: Fault,
    pub place: u32,
}

// WrongSize: the options not 12 long, the margin no multiple of 4, or another no multiple of 12.
fn is_wrong_size(kind: u32, size: usize) -> bool
    ensures { result ≡ wrong_size kind size }
{
    match kind {
        1 => size != 12,
        4 => size % 4 != 0,
        _ => size % 12 != 0,
    }
}

// TooMany: the most bytes that a record's payload may have.
fn most_of(kind: u32) -> usize
    ensures value { result ≡ most_of kind }
    ensures bound { result ≤ 3072 }
{
    match kind {
        2 => MOST_POINTS * 12,
        4 => MOST_MARGIN * 4,
        _ => MOST_FACES * 12,
    }
}

// Whether a whole head of a kind stands at an offset.
pub fn has_head(bytes: &[u8], kind: u32, at: usize) -> bool
    requires { at ≤ 4638 }
    ensures { result ≡ has_head bytes.now kind at }
{
    at + HEAD_LENGTH <= bytes.len() && two_bytes(bytes, at + 4) == kind
}

// What refuses the record at an offset, which is to be of a kind.
#[tactic(auto, unfolding(crate::specs::Faults::record_fault))]
pub fn record_fault(bytes: &[u8], kind: u32, at: usize) -> Result<(), Fault>
    requires { at ≤ 4638 }
    ensures { result ≡ record_fault bytes.now kind at }
{
    if bytes.len() < at + HEAD_LENGTH {
        return Err(Fault::CutShort);
    }
    if two_bytes(bytes, at + 4) != kind {
        return Err(Fault::OtherKind);
    }
    let size = four_bytes(bytes, at) as usize;
    if is_wrong_size(kind, size) {
        return Err(Fault::WrongSize);
    }
    if most_of(kind) < size {
        return Err(Fault::TooMany);
    }
    if bytes.len() < at + HEAD_LENGTH + size {
        return Err(Fault::CutShort);
    }
    Ok(())
}

// The same with its place.
pub fn check_record(bytes: &[u8], kind: RecordKind, at: usize) -> Result<(), BadFile>
    requires { at ≤ 4638 }
    ensures { result ≡ at_place at (record_fault bytes.now (kind_number kind) at) }
{
    record_fault(bytes, u32::from(kind), at).map_err(|fault| fault.at(at))
}

// What refuses the first record's payload: the unit, then the flags.
#[tactic(auto, unfolding(crate::specs::Faults::options_fault))]
pub fn options_fault(bytes: &[u8]) -> Result<(), Fault>
    requires { 18 ≤ length bytes.now }
    ensures { result ≡ options_fault bytes.now }
{
    Unit::try_from(two_bytes(bytes, UNIT_AT))?;
    if 3 < two_bytes(bytes, FLAGS_AT) {
        return Err(Fault::UnknownFlag);
    }
    Ok(())
}

// The same with its place.
pub fn check_options(bytes: &[u8]) -> Result<(), BadFile>
    requires { 18 ≤ length bytes.now }
    ensures { result ≡ at_place 0 (options_fault bytes.now) }
{
    options_fault(bytes).map_err(|fault| fault.at(0))
}
