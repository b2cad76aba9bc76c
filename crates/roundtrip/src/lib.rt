// A mesh written as a file and read back, by the writer's code and the reader's: what comes back is what was written.
#![tactic(auto)]

ghost use Rattle.roundtrip.specs.Trips.{RoomToRead, MeshRead, what_comes_back, BackAgain};

use scanfile::{read_faces, read_points, read_scan};
use scanwriter::write_scan;

// Reads a file's points and faces to the beginning of two lists, and answers its unit's number; 0 for bytes that are no good file.
fn read_mesh(bytes: &[u8], out_points: &mut [f32], out_faces: &mut [u32]) -> u32
    requires { RoomToRead bytes.now out_points.old out_faces.old }
    ensures { MeshRead bytes.now out_points.old out_points.new out_faces.old out_faces.new result }
{
    match read_scan(bytes) {
        Ok(head) => {
            let unit = head.unit;
            let v = head.points;
            let f = head.faces;
            read_points(bytes, v, out_points);
            read_faces(bytes, v, f, out_faces);
            u32::from(unit)
        }
        Err(_) => 0,
    }
}

// Writes a mesh as a file and reads that file back, to the beginning of two lists. The answer is the unit that was read; 0 where the
// writer refuses or a list is too short, and then both are as they came.
#[unsafe(no_mangle)]
pub extern "C" fn write_and_read(
    unit: u32,
    points: &[f32],
    faces: &[u32],
    file: &mut [u8],
    out_points: &mut [f32],
    out_faces: &mut [u32],
) -> u32
    ensures { BackAgain (what_comes_back unit points.now faces.now file.old out_points.old out_faces.old) unit points.now faces.now out_points.old out_points.new out_faces.old out_faces.new result }
{
    if out_points.len() < points.len() {
        return 0;
    }
    if out_faces.len() < faces.len() {
        return 0;
    }
    match write_scan(unit, points, faces, file) {
        Ok(size) => read_mesh(&file[..size], out_points, out_faces),
        Err(_) => 0,
    }
}
