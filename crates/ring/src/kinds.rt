// Every point's kind: the margin's points, then border points where they are preserved; the rest is free.
ghost use Rattle.std.specs.Prelude.{◌≡◌};
ghost use Rattle.lists.specs.Lists.{count, below};
ghost use Rattle.placement.specs.Choices.{kind_of, fixed};
ghost use Rattle.memory.specs.Memory.{Room, kind, live_faces};
ghost use Rattle.mesh.specs.Clauses.Chains.{Tidy};
ghost use Rattle.mesh.specs.Clauses.Laid.{Kinded};
ghost use Rattle.meaning.specs.Start.{fixed_count};
ghost use Rattle.ring.specs.Clauses.Kinds.{NamesPoints, Margined};

use crate::borders::mark_borders;
use memory::{Extent, kind_at, set_kind};
use placement::Kind;

// Writes the kind of each margin point, whatever it was before: margin wins.
fn mark_margin(w: &mut [u32], extent: Extent, margin: &[u32])
    requires fact_1 { Room extent.v extent.f w.old }
    requires fact_2 { NamesPoints extent.v margin.now }
    ensures { Margined extent.v extent.f margin.now w.old w.new }
{
    for &x in margin {
        set_kind(w, extent, x as usize, u32::from(Kind::Margin));
    }
}

// How many points are fixed, by their kinds.
fn count_fixed(w: &[u32], extent: Extent) -> usize
    requires { Room extent.v extent.f w.now }
    ensures { result ≡ count (λ x. fixed (kind_of (kind extent.v extent.f w.now x))) (below extent.v) }
{
    let mut n = 0;
    for x in 0..extent.v {
        if Kind::from(kind_at(w, extent, x)).is_fixed() {
            n += 1;
        }
    }
    n
}

// Writes every point's kind, and says how many points are fixed.
pub fn mark_kinds(w: &mut [u32], extent: Extent, preserve: bool, margin: &[u32]) -> usize
    requires fact_1 { Tidy extent.v extent.f w.old }
    requires fact_2 { NamesPoints extent.v margin.now }
    ensures kinded { Kinded extent.v extent.f preserve margin.now w.old w.new }
    ensures value { result ≡ fixed_count extent.v (live_faces extent.f w.old) preserve margin.now }
{
    mark_borders(w, extent, preserve);
    mark_margin(w, extent, margin);
    count_fixed(w, extent)
}
