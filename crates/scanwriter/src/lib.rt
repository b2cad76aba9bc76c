// The writer of document 01's file: three records into a buffer that the caller lends. It answers for any input, as ScanWritten of
// specs/Written.antt says.
#![tactic(auto)]

ghost use Rattle.std.specs.Prelude.{◌≡◌, [], map, ◌+◌, ◌*◌, ◌≤◌, ◌<◌, length};
ghost use Rattle.std.specs.Float.{binary32};
ghost use Rattle.std.specs.Float.Ieee.{to_bits};
ghost use Rattle.lists.specs.Puts.{Put};
ghost use Rattle.records.specs.Words.{as_fours};
ghost use Rattle.records.specs.Records.{record_bytes};
ghost use Rattle.scanfile.specs.Files.{options_record};
ghost use Rattle.scanwriter.specs.declared.WriteFault.TheVariants.{UnknownUnit};
ghost use Rattle.scanwriter.specs.Written.{scan_contents, scan_bytes, scan_room, fault_number, fault_place, writing_of, ScanWritten};
ghost use Rattle.scanwriter.specs.Clauses.{ScanFits};

use bits::patterns::bits_of_f32;
use records::{put_four, put_head, put_two};
use scanfile::layout::{MOST_FACES, MOST_POINTS, POINTS_AT, RecordKind, SECOND_AT};
use units::Unit;

// Why a mesh is not written.
#[derive(Clone, Copy, PartialEq, Eq, Debug)]
pub enum WriteFault {
    // A list's length is no multiple of 3.
    UnevenList,
    // The unit is none of document 01's.
    UnknownUnit,
    // There are more points or more faces than a file may hold. Their record would stand here.
    TooMany(u32),
    // The buffer is too short.
    ShortBuffer,
}

impl WriteFault {
    // Its number: 1, 24, 27 or 31.
    pub fn number(self) -> u32
        ensures { result ≡ fault_number self }
    {
        match self {
            WriteFault::UnevenList => 1,
            WriteFault::UnknownUnit => 24,
            WriteFault::TooMany(_) => 27,
            WriteFault::ShortBuffer => 31,
        }
    }

    // Its place, 0 where it has none.
    pub fn place(self) -> u32
        ensures { result ≡ fault_place self }
    {
        match self {
            WriteFault::TooMany(offset) => offset,
            _ => 0,
        }
    }
}

// A number that is no unit's.
impl From<units::UnknownUnit> for WriteFault {
    ghost from_gives = { λ _ fault. fault ≡ UnknownUnit };

    fn from(_number: units::UnknownUnit) -> WriteFault {
        Self::UnknownUnit
    }
}

// How many bytes writing takes, from the lengths of the lists and of the buffer, or why nothing is written.
#[tactic(auto, using(units::proofs::UnitLaws::known_read), unfolding(crate::specs::Written::writing_of))]
fn writing_of(unit: u32, points: usize, faces: usize, room: usize) -> Result<usize, WriteFault>
    ensures { result ≡ writing_of unit points faces room }
{
    if points % 3 != 0 || faces % 3 != 0 {
        return Err(WriteFault::UnevenList);
    }
    Unit::try_from(unit)?;
    let v = points / 3;
    if MOST_POINTS < v {
        return Err(WriteFault::TooMany(SECOND_AT as u32));
    }
    let f = faces / 3;
    if MOST_FACES < f {
        return Err(WriteFault::TooMany((POINTS_AT + 12 * v) as u32));
    }
    let end = 30 + 12 * v + 12 * f;
    if room < end {
        return Err(WriteFault::ShortBuffer);
    }
    Ok(end)
}

// Writes the first record: the unit, no flags, ratio +0 and limit +0.
fn put_options(file: &mut [u8], unit: u32) -> usize
    requires two_bytes { unit < 65536 }
    requires room { 18 ≤ length file.old }
    ensures { Put 18 (record_bytes (options_record (scan_contents unit [] []))) 0 file.old file.new result }
{
    let at_unit = put_head(file, 0, 12, u32::from(RecordKind::Options));
    let at_flags = put_two(file, at_unit, unit);
    let at_ratio = put_two(file, at_flags, 0);
    let at_limit = put_four(file, at_ratio, 0);
    put_four(file, at_limit, 0)
}

// Writes the coordinates of points by their bits, a NaN as 7fc00000.
fn put_points(file: &mut [u8], at: usize, points: &[f32]) -> usize
    requires { at + 4 * length points.now ≤ length file.old }
    ensures { Put (4 * length points.now) (as_fours (map (to_bits binary32) points.now)) at file.old file.new result }
{
    let mut next = at;
    for &x in points {
        next = put_four(file, next, bits_of_f32(x));
    }
    next
}

// Writes the point numbers of faces.
fn put_faces(file: &mut [u8], at: usize, faces: &[u32]) -> usize
    requires { at + 4 * length faces.now ≤ length file.old }
    ensures { Put (4 * length faces.now) (as_fours faces.now) at file.old file.new result }
{
    let mut next = at;
    for &number in faces {
        next = put_four(file, next, number);
    }
    next
}

// Writes the three records where they fit, and answers how many bytes they take.
fn put_scan(file: &mut [u8], unit: u32, points: &[f32], faces: &[u32]) -> usize
    requires { ScanFits unit points.now faces.now file.old }
    ensures { Put (scan_room (length points.now) (length faces.now)) (scan_bytes unit points.now faces.now) 0 file.old file.new result }
{
    let second = put_options(file, unit);
    let at_points = put_head(
        file,
        second,
        4 * points.len() as u32,
        u32::from(RecordKind::Points),
    );
    let third = put_points(file, at_points, points);
    let at_faces = put_head(
        file,
        third,
        4 * faces.len() as u32,
        u32::from(RecordKind::Faces),
    );
    put_faces(file, at_faces, faces)
}

// Writes a mesh and its unit as a file, and answers how many bytes it takes, or why nothing was written.
pub fn write_scan(
    unit: u32,
    points: &[f32],
    faces: &[u32],
    file: &mut [u8],
) -> Result<usize, WriteFault>
    ensures { ScanWritten unit points.now faces.now file.old file.new result }
{
    let size = writing_of(unit, points.len(), faces.len(), file.len())?;
    put_scan(file, unit, points, faces);
    Ok(size)
}
