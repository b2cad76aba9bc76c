// The fold in lent memory (document 01, "A fold moves keep"): tried by the fold test, and made where that allows it.
#![tactic(auto)]

ghost use Rattle.std.specs.Prelude.{◌≡◌, ◌≢◌, ◌+◌, ◌*◌, ◌≤◌, ◌<◌, length, Float, Option};
ghost use Rattle.placement.specs.Pairs.{pair_place};
ghost use Rattle.mesh.specs.Clauses.Chains.{Tidy};
ghost use Rattle.mesh.specs.Clauses.Around.{Gathered};
ghost use Rattle.geometry.specs.Quadrics.{quadric_sum};
ghost use Rattle.memory.specs.Points.{quadric_at, vertex_at};
ghost use Rattle.folding.specs.Clauses.Folds.{FacesFolded, MeshFolded, FoldTried};
ghost use Rattle.memory.specs.Layout.{near_from};

mod steps;

use geometry::Quadric;
use memory::Extent;
use placement::Fold;
use ring::Ring;
use steps::{kill, relist};
use walk::Reason;

// Folds remove into keep in the faces, by the live faces around the two. Says how many faces went.
// The chains of both points are dropped and the live faces listed again, so that no chain grows with dead faces.
fn fold_faces(w: &mut [u32], extent: Extent, keep: u32, remove: u32, ring: Ring) -> usize
    requires fact_1 { Tidy extent.v extent.f w.old }
    requires fact_2 { (keep < extent.v) × (remove < extent.v) × (keep ≢ remove) }
    requires fact_3 { Gathered extent.v extent.f w.old keep ring.near ring.nears }
    requires fact_4 { Gathered extent.v extent.f w.old remove ring.far ring.fars }
    requires fact_5 { (near_from extent.v extent.f ≤ ring.near) × (ring.near + extent.f ≤ ring.far) × (ring.far + extent.f ≤ length w.old) }
    ensures { FacesFolded extent.v extent.f w.old keep remove w.new result }
{
    let gone = kill(w, extent.f, ring.near, ring.nears, remove);
    memory::set_first(w, extent.f, keep as usize, 0);
    memory::set_first(w, extent.f, remove as usize, 0);
    relist(w, extent.f, ring.near, ring.nears, keep, keep);
    relist(w, extent.f, ring.far, ring.fars, remove, keep);
    gone
}

// The whole fold: keep moves to its place and gets the sum of both quadrics, and the faces are folded. Says how many faces went.
fn fold_mesh(
    w: &mut [u32],
    p: &mut [f32],
    q: &mut [f64],
    extent: Extent,
    fold: Fold,
    sum: Quadric,
    ring: Ring,
) -> usize
    requires fact_1 { Tidy extent.v extent.f w.old }
    requires fact_2 { (fold.keep < extent.v) × (fold.remove < extent.v) × (fold.keep ≢ fold.remove) }
    requires fact_3 { Gathered extent.v extent.f w.old fold.keep ring.near ring.nears }
    requires fact_4 { Gathered extent.v extent.f w.old fold.remove ring.far ring.fars }
    requires fact_5 { (near_from extent.v extent.f ≤ ring.near) × (ring.near + extent.f ≤ ring.far) × (ring.far + extent.f ≤ length w.old) × (3 * extent.v ≤ length p.old) × (10 * extent.v ≤ length q.old) }
    requires sum_value { sum ≡ quadric_sum (quadric_at q.old fold.keep) (quadric_at q.old fold.remove) }
    ensures { (limit : Option Float) (bound : Float) → fold.place ≡ pair_place bound (vertex_at extent.v extent.f w.old p.old q.old fold.keep) (vertex_at extent.v extent.f w.old p.old q.old fold.remove) → MeshFolded extent.v extent.f limit bound w.old p.old q.old fold.keep fold.remove w.new p.new q.new result }
{
    let kept = fold.keep as usize;
    memory::set_point(p, kept, fold.place);
    memory::set_quadric(q, kept, sum);
    fold_faces(w, extent, fold.keep, fold.remove, ring)
}

// Tries a fold: it is made where the fold test allows it, and where not the mesh stays as it was. Says how many faces went, or why it isn't allowed.
// The faces around its two points are listed first. What the sum of the quadrics takes is read before them, for it lies elsewhere, and the chains are walked meanwhile.
pub fn try_fold(
    w: &mut [u32],
    p: &mut [f32],
    q: &mut [f64],
    extent: Extent,
    fold: Fold,
) -> Result<usize, Reason>
    requires fact_1 { Tidy extent.v extent.f w.old }
    requires fact_2 { (fold.keep < extent.v) × (fold.remove < extent.v) × (fold.keep ≢ fold.remove) }
    requires fact_3 { (3 * extent.v ≤ length p.old) × (10 * extent.v ≤ length q.old) }
    ensures { (limit : Option Float) (bound : Float) → fold.place ≡ pair_place bound (vertex_at extent.v extent.f w.old p.old q.old fold.keep) (vertex_at extent.v extent.f w.old p.old q.old fold.remove) → FoldTried extent.v extent.f limit bound w.old p.old q.old fold.keep fold.remove w.new p.new q.new result }
{
    let kept = fold.keep as usize;
    let removed = fold.remove as usize;
    let sum = memory::quadric_at(q, kept).sum(memory::quadric_at(q, removed));
    let ring = ring::gather(w, extent, fold.keep, fold.remove);
    foldtest::tested(w, p, extent, fold, ring)?;
    Ok(fold_mesh(w, p, q, extent, fold, sum, ring))
}
