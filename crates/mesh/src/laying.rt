// Laying a mesh out in the memory.
ghost use Rattle.std.specs.Prelude.{◌≡◌, true, ℕ, ◌*◌, ◌<◌, length};
ghost use Rattle.lists.specs.Lists.{every};
ghost use Rattle.walk.specs.Faces.{proper, faces_of};
ghost use Rattle.memory.specs.Memory.{Room, corner, first};
ghost use Rattle.mesh.specs.Clauses.Laying.{Joined};
ghost use Rattle.mesh.specs.Clauses.Laid.{Laid};

use crate::links::push_corner;
use memory::{Extent, corner_at};

// Puts every corner into the chain of its point, where all chains are empty. It goes from the last corner to the first, so
// that a chain runs in face order.
fn join(w: &mut [u32], extent: Extent)
    requires fact_1 { Room extent.v extent.f w.old }
    requires fact_2 { ((c : ℕ) → c < 3 * extent.f → corner w.old c < extent.v) }
    requires fact_3 { ((x : ℕ) → x < extent.v → first extent.f w.old x ≡ 0) }
    ensures { Joined extent.v extent.f w.old w.new }
{
    for c in (0..3 * extent.f).rev() {
        let x = corner_at(w, c) as usize;
        push_corner(w, extent.f, c, x);
    }
}

// Lays a mesh out: its faces, all live, each listed at its three points, and no mark. First links, kinds and marks lie side by
// side, so one stretch of zeros clears them.
pub fn lay_faces(faces: &[u32], w: &mut [u32], extent: Extent)
    requires fact_1 { Room extent.v extent.f w.old }
    requires fact_2 { length faces.now ≡ 3 * extent.f }
    requires fact_3 { every (proper extent.v) (faces_of extent.f faces.now) ≡ true }
    ensures { Laid extent.v extent.f faces.now w.old w.new }
{
    lists::copy(faces, w);
    lists::fill(w, memory::lives_from(extent.f), extent.f, 1);
    lists::fill(w, memory::firsts_from(extent.f), 3 * extent.v, 0);
    join(w, extent);
}
