// What is around a point: its neighbours, whether it is on the border, and what two points have in common.
#![tactic(auto)]

mod around;
mod borders;
mod common;
mod gathering;
mod kinds;
mod marking;

pub use around::list_around;
pub use common::{common_count, shared_count};
pub use gathering::gather;
pub use kinds::mark_kinds;
pub use marking::{clear_faces, mark_faces, slot_at};

// Which points around a point are asked for: those to which a face edge rises from it, or every neighbour.
#[derive(Clone, Copy)]
pub enum Neighbours {
    Rising,
    Every,
}

// The faces around the two points of a pair, as they are listed in the memory: where each list begins and how many it has, keep's first.
#[derive(Clone, Copy)]
pub struct Ring {
    pub near: usize,
    pub nears: usize,
    pub far: usize,
    pub fars: usize,
}
