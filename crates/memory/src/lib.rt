// What stands where in the lent work memory: where each part begins, and its cells read and written by name.
#![tactic(auto)]

mod cells;
mod entries;
mod layout;
mod points;

pub use cells::{
    around_at, corner_at, face_in, first_at, is_live, kind_at, live_at, mark_at, near_at, next_at,
    set_around, set_corner, set_first, set_kind, set_live, set_mark, set_next,
};
pub use entries::{
    Entry, cost_at, entry_at, entry_pair, keep_at, note_fold, remove_at, set_entry, set_pair,
    set_stamp, stamp_at,
};
pub use layout::{
    Extent, around_from, far_from, firsts_from, folds_from, lives_from, near_from, stamps_from,
};
pub use points::{point_at, quadric_at, set_point, set_quadric, vertex_at, vertex_with};
