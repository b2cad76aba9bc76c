// The reader of scan files: three or four records, little-endian. It answers for any bytes, as scan_of of specs/Scans.antt says.
#![tactic(auto)]

ghost use Rattle.std.specs.Prelude.{◌≡◌, ◌≤◌};
ghost use Rattle.records.specs.Words.{numbers_from};
ghost use Rattle.scanfile.specs.Layout.{last_end};
ghost use Rattle.scanfile.specs.Scans.{margin_count, head_of, after_last, after_third, scan_of};
ghost use Rattle.scanfile.specs.Contents.{points_of, face_numbers_of, margin_of};
ghost use Rattle.lists.specs.Lists.{overlaid};
ghost use Rattle.scanfile.specs.Clauses.{ThreeThere, PointsThere, FacesThere, NumbersThere, MarginThere};

use faults::{check_options, check_record, has_head};
use layout::{FLAGS_AT, LIMIT_AT, POINTS_AT, RATIO_AT, RecordKind, SECOND_AT, UNIT_AT};
use records::{HEAD_LENGTH, float_at, four_bytes, two_bytes};
use units::{Unit, unit_of};

pub mod faults;
pub mod layout;
pub mod told;

pub use faults::{BadFile, Fault};

// The longest good file: four heads of 6 bytes, 12 bytes of options, 128 points and 256 faces of 12 bytes each, and 128 points of the
// margin of 4 bytes each.
pub const MOST_BYTES: usize = 5156;

// What a good file says beside its points, its faces and the margin.
#[derive(Clone, Copy)]
pub struct Head {
    pub unit: Unit,
    pub preserve: bool,
    pub limit: Option<f32>,
    pub ratio: f32,
    // at most 128 and 256
    pub points: usize,
    pub faces: usize,
    // at most 128: how many points the margin names
    pub margin: usize,
}

// The head of a good file, whose third record starts at an offset, and whose margin names so many points.
fn head_of(bytes: &[u8], third: usize, margin: usize) -> Head
    requires three_there { ThreeThere bytes.now third }
    requires margin_is { margin ≡ margin_count bytes.now }
    ensures { result ≡ head_of bytes.now }
{
    let flags = two_bytes(bytes, FLAGS_AT);
    let limit = (flags / 2 % 2 == 1).then_some(float_at(bytes, LIMIT_AT));
    Head {
        unit: unit_of(two_bytes(bytes, UNIT_AT)),
        preserve: flags % 2 == 1,
        limit,
        ratio: float_at(bytes, RATIO_AT),
        points: four_bytes(bytes, SECOND_AT) as usize / 12,
        faces: four_bytes(bytes, third) as usize / 12,
        margin,
    }
}

// What a file is none of whose records is refused. The third starts at an offset, the last ends at one, and the margin names so many points.
fn read_end(bytes: &[u8], third: usize, end: usize, margin: usize) -> Result<Head, BadFile>
    requires three_there { ThreeThere bytes.now third }
    requires end_is { end ≡ last_end bytes.now }
    requires end_most { end ≤ 5156 }
    requires margin_is { margin ≡ margin_count bytes.now }
    ensures { result ≡ after_last bytes.now }
{
    if end < bytes.len() {
        return Err(Fault::BytesFollow.at(end));
    }
    Ok(head_of(bytes, third, margin))
}

// What a file is none of whose first three records is refused. The third starts at an offset.
fn read_tail(bytes: &[u8], third: usize) -> Result<Head, BadFile>
    requires { ThreeThere bytes.now third }
    ensures { result ≡ after_third bytes.now }
{
    let fourth = third + HEAD_LENGTH + four_bytes(bytes, third) as usize;
    if !has_head(bytes, u32::from(RecordKind::Margin), fourth) {
        return read_end(bytes, third, fourth, 0);
    }
    check_record(bytes, RecordKind::Margin, fourth)?;
    let size = four_bytes(bytes, fourth) as usize;
    read_end(bytes, third, fourth + HEAD_LENGTH + size, size / 4)
}

// What a file is: good, with its head, or refused.
pub fn read_scan(bytes: &[u8]) -> Result<Head, BadFile>
    ensures { result ≡ scan_of bytes.now }
{
    check_record(bytes, RecordKind::Options, 0)?;
    check_options(bytes)?;
    check_record(bytes, RecordKind::Points, SECOND_AT)?;
    let third = POINTS_AT + four_bytes(bytes, SECOND_AT) as usize;
    check_record(bytes, RecordKind::Faces, third)?;
    read_tail(bytes, third)
}

// Reads the coordinates of so many points, three each, to the beginning of out.
pub fn read_points(bytes: &[u8], points: usize, out: &mut [f32])
    requires { PointsThere bytes.now points out.old }
    ensures { out.new ≡ overlaid (points_of bytes.now points) out.old }
{
    for (i, cell) in out[..3 * points].iter_mut().enumerate() {
        *cell = float_at(bytes, POINTS_AT + 4 * i);
    }
}

// Reads so many numbers, the first at an offset, to the beginning of out.
fn read_numbers(bytes: &[u8], at: usize, n: usize, out: &mut [u32])
    requires { NumbersThere bytes.now at n out.old }
    ensures { out.new ≡ overlaid (numbers_from bytes.now at n) out.old }
{
    for (i, cell) in out[..n].iter_mut().enumerate() {
        *cell = four_bytes(bytes, at + 4 * i);
    }
}

// Reads the point numbers of so many faces, three each, to the beginning of out. The faces stand behind so many points.
pub fn read_faces(bytes: &[u8], points: usize, faces: usize, out: &mut [u32])
    requires { FacesThere bytes.now points faces out.old }
    ensures { out.new ≡ overlaid (face_numbers_of bytes.now points faces) out.old }
{
    read_numbers(bytes, 30 + 12 * points, 3 * faces, out)
}

// Reads the numbers of so many points of the margin to the beginning of out. They stand behind so many points and faces.
pub fn read_margin(bytes: &[u8], points: usize, faces: usize, margin: usize, out: &mut [u32])
    requires { MarginThere bytes.now points faces margin out.old }
    ensures { out.new ≡ overlaid (margin_of bytes.now points faces margin) out.old }
{
    read_numbers(
        bytes,
        30 + 12 * points + 12 * faces + HEAD_LENGTH,
        margin,
        out,
    )
}
