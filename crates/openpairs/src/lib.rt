// The open pairs of the plain walk in lent memory: opened, closed, and the least of them found.
#![tactic(auto)]

mod opening;
mod pairs;

pub use opening::{open_neighbours, open_start};
pub use pairs::{Least, Ranked, close_pair, comes_first, drop_pairs, least_pair};
