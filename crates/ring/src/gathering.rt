// The faces around the two points of a pair.
ghost use Rattle.std.specs.Prelude.{◌<◌};
ghost use Rattle.mesh.specs.Clauses.Chains.{Tidy};
ghost use Rattle.ring.specs.Clauses.Rings.{RingGathered};

use crate::Ring;
use memory::Extent;

// Lists the faces around keep and those around remove, one list after the other.
pub fn gather(w: &mut [u32], extent: Extent, keep: u32, remove: u32) -> Ring
    requires fact_1 { Tidy extent.v extent.f w.old }
    requires fact_2 { (keep < extent.v) × (remove < extent.v) }
    ensures { RingGathered extent.v extent.f w.old keep remove w.new result }
{
    let near = memory::near_from(extent);
    let far = memory::far_from(extent);
    let nears = mesh::collect(w, extent, keep as usize, near);
    let fars = mesh::collect(w, extent, remove as usize, far);
    Ring {
        near,
        nears,
        far,
        fars,
    }
}
