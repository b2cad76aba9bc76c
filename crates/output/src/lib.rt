// The output: live faces in face order, points numbered by first use; or the mesh as it came.
#![tactic(auto)]

mod copying;
mod writing;

pub use copying::copy_mesh;
pub use writing::write_mesh;

// How many points and faces were written.
#[derive(Clone, Copy)]
pub struct Counts {
    pub points: usize,
    pub faces: usize,
}
