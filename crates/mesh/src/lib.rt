// The mesh in lent memory: laid out from the lists that are handed over, with the faces at each point as chains of corners.
#![tactic(auto)]

mod laying;
mod links;
mod quadrics;

pub use laying::lay_faces;
pub use links::{collect, push_corner};
pub use quadrics::{lay_points, lay_quadrics};
