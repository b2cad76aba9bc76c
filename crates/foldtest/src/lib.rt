// The fold test: whether a pair may be folded without tearing the surface, and without squashing a face or turning one over; and if not, why.
// Its work hangs on the faces around the two points, which the caller lists.
#![tactic(auto)]

mod fair;

ghost use Rattle.std.specs.Prelude.{◌≡◌, true, cond, ◌&&◌, ◌*◌, ◌≤◌, ◌<◌, ltb, length};
ghost use Rattle.lists.specs.Lists.{stretch};
ghost use Rattle.walk.specs.Faces.{proper, face_at};
ghost use Rattle.walk.specs.FoldTest.{linked, first_harm};
ghost use Rattle.memory.specs.Memory.{Room, live_faces, live_numbers};
ghost use Rattle.mesh.specs.Clauses.Chains.{Tidy};
ghost use Rattle.ring.specs.Clauses.Marking.{FacesListed, Around};
ghost use Rattle.foldtest.specs.Clauses.Fair.{harmed, harm_at};
ghost use Rattle.foldtest.specs.Clauses.Lowest.{lowest_of, LowestHarm};
ghost use Rattle.foldtest.specs.Clauses.Allowed.{tested_at};

use fair::tested_face;
use memory::{Extent, face_in};
use placement::Fold;
use ring::{Ring, common_count, shared_count};
use walk::Reason;

// Whether the face in a slot is harmed by the fold: it doesn't hold the other point, and is squashed or turned over.
fn is_harmed(w: &[u32], p: &[f32], extent: Extent, k: usize, other: u32, fold: Fold) -> bool
    requires fact_1 { 3 * extent.f ≤ length w.now }
    requires fact_2 { 3 * extent.v ≤ length p.now }
    requires fact_3 { k < extent.f }
    requires fact_4 { proper extent.v (face_at w.now k) ≡ true }
    ensures { result ≡ harmed p.now fold.keep fold.remove fold.place other (face_at w.now k) }
{
    let face = face_in(w, extent.f, k);
    !face.holds(other) && tested_face(p, k, face, fold).is_err()
}

// The number of a slot if it is below another number and its face is harmed, or else that number. A face that isn't below it isn't asked.
fn lower_harmed(
    w: &[u32],
    p: &[f32],
    extent: Extent,
    k: usize,
    other: u32,
    fold: Fold,
    lowest: usize,
) -> usize
    requires fact_1 { 3 * extent.f ≤ length w.now }
    requires fact_2 { 3 * extent.v ≤ length p.now }
    requires fact_3 { k < extent.f }
    requires fact_4 { proper extent.v (face_at w.now k) ≡ true }
    ensures { result ≡ cond (ltb k lowest && harmed p.now fold.keep fold.remove fold.place other (face_at w.now k)) k lowest }
{
    if lowest <= k {
        return lowest;
    }
    if is_harmed(w, p, extent, k, other, fold) {
        return k;
    }
    lowest
}

// The lowest number of the listed faces that is below another number and whose face is harmed, or else that number.
fn lowest_harmed(
    w: &[u32],
    p: &[f32],
    extent: Extent,
    base: usize,
    n: usize,
    other: u32,
    fold: Fold,
    from: usize,
) -> usize
    requires fact_1 { Room extent.v extent.f w.now }
    requires fact_2 { 3 * extent.v ≤ length p.now }
    requires fact_3 { FacesListed extent.v extent.f w.now base n }
    ensures { result ≡ lowest_of (λ k. harmed p.now fold.keep fold.remove fold.place other (face_at w.now k)) from (stretch w.now base n) }
{
    let mut lowest = from;
    for &k in &w[base..base + n] {
        lowest = lower_harmed(w, p, extent, k as usize, other, fold, lowest);
    }
    lowest
}

// The number of the lowest face at either point that is harmed by the fold, or F where none is. A face at keep is asked if it doesn't hold remove, and the
// other way round.
fn lowest_around(w: &[u32], p: &[f32], extent: Extent, fold: Fold, ring: Ring) -> usize
    requires fact_1 { Tidy extent.v extent.f w.now }
    requires fact_2 { 3 * extent.v ≤ length p.now }
    requires fact_3 { Around extent.v extent.f w.now fold.keep ring.near ring.nears }
    requires fact_4 { Around extent.v extent.f w.now fold.remove ring.far ring.fars }
    ensures { LowestHarm extent.f w.now p.now fold.keep fold.remove fold.place result }
{
    let at_keep = lowest_harmed(
        w,
        p,
        extent,
        ring.near,
        ring.nears,
        fold.remove,
        fold,
        extent.f,
    );
    lowest_harmed(w, p, extent, ring.far, ring.fars, fold.keep, fold, at_keep)
}

// Whether some face holds both points, and as many faces hold both as there are common neighbours.
fn is_linked(w: &mut [u32], extent: Extent, fold: Fold, ring: Ring) -> bool
    requires fact_1 { Tidy extent.v extent.f w.old }
    requires fact_2 { Around extent.v extent.f w.old fold.keep ring.near ring.nears }
    requires fact_3 { Around extent.v extent.f w.old fold.remove ring.far ring.fars }
    ensures value { result ≡ linked extent.v (live_faces extent.f w.old) fold.keep fold.remove }
    ensures w_unchanged { w.new ≡ w.old }
{
    let shared = shared_count(w, extent.f, ring.near, ring.nears, fold.remove);
    if shared < 1 {
        return false;
    }
    common_count(w, extent, fold.keep, fold.remove, ring) == shared
}

// What the faces around the two points say: allowed, or what the fold does to the lowest face that it harms.
fn tested_faces(w: &[u32], p: &[f32], extent: Extent, fold: Fold, ring: Ring) -> Result<(), Reason>
    requires fact_1 { Tidy extent.v extent.f w.now }
    requires fact_2 { 3 * extent.v ≤ length p.now }
    requires fact_3 { Around extent.v extent.f w.now fold.keep ring.near ring.nears }
    requires fact_4 { Around extent.v extent.f w.now fold.remove ring.far ring.fars }
    ensures { result ≡ first_harm (harm_at p.now fold.keep fold.remove fold.place) (live_faces extent.f w.now) (live_numbers extent.f w.now) }
{
    let k = lowest_around(w, p, extent, fold, ring);
    if k < extent.f {
        return tested_face(p, k, face_in(w, extent.f, k), fold);
    }
    Ok(())
}

// The fold test, by the live faces around the two points.
pub fn tested(
    w: &mut [u32],
    p: &[f32],
    extent: Extent,
    fold: Fold,
    ring: Ring,
) -> Result<(), Reason>
    requires fact_1 { Tidy extent.v extent.f w.old }
    requires fact_2 { 3 * extent.v ≤ length p.now }
    requires fact_3 { Around extent.v extent.f w.old fold.keep ring.near ring.nears }
    requires fact_4 { Around extent.v extent.f w.old fold.remove ring.far ring.fars }
    ensures value { result ≡ tested_at extent.v extent.f w.old p.now fold.keep fold.remove fold.place }
    ensures w_unchanged { w.new ≡ w.old }
{
    if !is_linked(w, extent, fold, ring) {
        return Err(Reason::NotLinked);
    }
    tested_faces(w, p, extent, fold, ring)
}
