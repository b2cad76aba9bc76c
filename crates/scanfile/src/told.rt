// What a file is, as a number and nine cells, which the crate scanfile_c tells C.
ghost use Rattle.std.specs.Prelude.{◌≡◌, ◌≤◌, length, Ok};
ghost use Rattle.scanfile.specs.Scans.{scan_of};
ghost use Rattle.scanfile.specs.Clauses.{Tellable};
ghost use Rattle.scanfile.specs.Told.{number_of, limit_pattern, cells_of};

use crate::layout::{LIMIT_AT, RATIO_AT};
use crate::{Head, read_scan};
use records::four_bytes;

// The limit's pattern as the file has it, and 0 where there is no limit.
fn limit_pattern(bytes: &[u8], limit: Option<f32>) -> u32
    requires { 18 ≤ length bytes.now }
    ensures { result ≡ limit_pattern bytes.now limit }
{
    match limit {
        None => 0,
        Some(_) => four_bytes(bytes, LIMIT_AT),
    }
}

// The cells of a good file.
#[tactic(auto, unfolding(crate::specs::Told::cells_of))]
fn tell_good(bytes: &[u8], h: Head, cells: &mut [u32; 9])
    requires { Tellable bytes.now h }
    ensures { cells.new ≡ cells_of bytes.now (Ok h) }
{
    *cells = [
        u32::from(h.unit),
        u32::from(h.preserve),
        u32::from(h.limit.is_some()),
        limit_pattern(bytes, h.limit),
        four_bytes(bytes, RATIO_AT),
        h.points as u32,
        h.faces as u32,
        h.margin as u32,
        0,
    ];
}

// What a file is: the number, with the cells unit, preserve, limited, limit, ratio, points, faces, margin and place.
#[tactic(auto, unfolding(crate::specs::Told::cells_of))]
pub fn tell_scan(bytes: &[u8], cells: &mut [u32; 9]) -> u32
    ensures number { result ≡ number_of (scan_of bytes.now) }
    ensures cells { cells.new ≡ cells_of bytes.now (scan_of bytes.now) }
{
    match read_scan(bytes) {
        Ok(head) => {
            tell_good(bytes, head, cells);
            0
        }
        Err(bad) => {
            *cells = [0, 0, 0, 0, 0, 0, 0, 0, bad.place];
            bad.fault.number()
        }
    }
}
