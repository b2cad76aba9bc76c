// The reader of scan files for C: what a file is, as a number and nine cells.
#![tactic(auto)]

ghost use Rattle.std.specs.Prelude.{◌≡◌};
ghost use Rattle.scanfile.specs.Scans.{scan_of};
ghost use Rattle.scanfile.specs.Told.{number_of, cells_of};

use scanfile::told;

// What a file is: the number, with the cells unit, preserve, limited, limit, ratio, points, faces, margin and place.
#[unsafe(no_mangle)]
pub extern "C" fn tell_scan(bytes: &[u8], cells: &mut [u32; 9]) -> u32
    ensures number { result ≡ number_of (scan_of bytes.now) }
    ensures cells { cells.new ≡ cells_of bytes.now (scan_of bytes.now) }
{
    told::tell_scan(bytes, cells)
}
