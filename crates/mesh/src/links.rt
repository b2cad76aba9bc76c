// The faces at a point, as a chain of corners.
ghost use Rattle.std.specs.Prelude.{◌≡◌, ◌+◌, ◌^◌, ◌≤◌, ◌<◌, length, set};
ghost use Rattle.memory.specs.Memory.{first};
ghost use Rattle.mesh.specs.Clauses.Chains.{Tidy};
ghost use Rattle.mesh.specs.Clauses.Around.{Collected};
ghost use Rattle.memory.specs.Layout.{firsts_from, near_from, nexts_from};

use memory::{Extent, first_at, is_live, next_at, set_first, set_next};

// Puts a corner at the head of a point's chain.
pub fn push_corner(w: &mut [u32], f: usize, c: usize, x: usize)
    requires fact_1 { nexts_from f + c < length w.old }
    requires fact_2 { firsts_from f + x < length w.old }
    requires fact_3 { c + 1 < 2 ^ 32 }
    ensures { w.new ≡ set (set w.old (nexts_from f + c) (first f w.old x)) (firsts_from f + x) (c + 1) }
{
    let old = first_at(w, f, x);
    set_next(w, f, c, old);
    set_first(w, f, x, (c + 1) as u32);
}

// The slots of the live faces around a point, into the cells from base on. Says how many.
// A chain may still list dead faces: they are passed over.
pub fn collect(w: &mut [u32], extent: Extent, x: usize, base: usize) -> usize
    requires fact_1 { Tidy extent.v extent.f w.old }
    requires fact_2 { x < extent.v }
    requires fact_3 { near_from extent.v extent.f ≤ base }
    requires fact_4 { base + extent.f ≤ length w.old }
    ensures { Collected extent.v extent.f w.old x base w.new result }
{
    let mut n = 0;
    let mut link = first_at(w, extent.f, x) as usize;
    while link != 0 {
        let face = (link - 1) / 3;
        link = next_at(w, extent.f, link - 1) as usize;
        if is_live(w, extent.f, face) {
            w[base + n] = face as u32;
            n += 1;
        }
    }
    n
}
