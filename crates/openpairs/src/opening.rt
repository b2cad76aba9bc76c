// Pairs are opened around a point: at the start, and after a fold.
//
// The points around it are listed, each once, and each is opened with it where the pair is eligible.
ghost use Rattle.std.specs.Prelude.{◌≡◌, ◌+◌, ◌*◌, ◌≤◌, ◌<◌, length};
ghost use Rattle.walk.specs.Pairs.{opened};
ghost use Rattle.walk.specs.Walk.{started};
ghost use Rattle.memory.specs.Memory.{Room};
ghost use Rattle.mesh.specs.Clauses.Chains.{Tidy};
ghost use Rattle.memory.specs.Points.{mesh_of};
ghost use Rattle.meaning.specs.Arithmetic.{rules_of};
ghost use Rattle.openpairs.specs.Clauses.Changes.{Added};
ghost use Rattle.openpairs.specs.Clauses.Edges.{opened_around};
ghost use Rattle.openpairs.specs.Clauses.Waiting.{fits, waiting, PairsReady};

use crate::pairs::ends_at;
use memory::{Extent, set_pair};
use placement::Bounds;
use placement::pair::pair_eligible;
use ring::Neighbours;

// Whether x with y is eligible.
fn is_eligible(
    w: &[u32],
    p: &[f32],
    q: &[f64],
    extent: Extent,
    x: u32,
    y: u32,
    bounds: Bounds,
) -> bool
    requires room { Room extent.v extent.f w.now }
    requires points_long { 3 * extent.v ≤ length p.now }
    requires quadrics_long { 10 * extent.v ≤ length q.now }
    requires named { (x < extent.v) × (y < extent.v) }
    ensures { result ≡ fits extent.v extent.f w.now p.now q.now bounds.limit bounds.size x y }
{
    let (stays, goes) = ends_at(w, p, q, extent, x, y);
    let limit = bounds.limit;
    pair_eligible(stays, goes, limit, bounds.size)
}

// Opens x with each of the listed points, where the pair is eligible. Says how many pairs are open.
fn open_listed(
    w: &mut [u32],
    p: &[f32],
    q: &[f64],
    extent: Extent,
    n: usize,
    x: u32,
    count: usize,
    bounds: Bounds,
) -> usize
    requires { PairsReady extent.v extent.f w.old p.now q.now bounds.limit bounds.size x count n }
    ensures { Added extent.v extent.f w.old n (waiting extent.v extent.f w.old p.now q.now bounds.limit bounds.size x count) w.new result }
{
    let mut now_open = n;
    for i in 0..count {
        let y = memory::around_at(w, extent, i);
        if is_eligible(w, p, q, extent, x, y, bounds) {
            set_pair(w, extent, now_open, x, y);
            now_open += 1;
        }
    }
    now_open
}

// Opens the pairs around x, each once: at the start along the face edges that rise from it, after a fold with every neighbour. Says how many pairs are open.
fn open_around(
    w: &mut [u32],
    p: &[f32],
    q: &[f64],
    extent: Extent,
    n: usize,
    which: Neighbours,
    x: u32,
    bounds: Bounds,
) -> usize
    requires tidy { Tidy extent.v extent.f w.old }
    requires point { x < extent.v }
    requires points_long { 3 * extent.v ≤ length p.now }
    requires quadrics_long { 10 * extent.v ≤ length q.now }
    requires room { n + length (opened_around (rules_of bounds.limit bounds.size) (mesh_of extent.v extent.f w.old p.now q.now) which x) ≤ 3 * extent.f }
    ensures { Added extent.v extent.f w.old n (opened_around (rules_of bounds.limit bounds.size) (mesh_of extent.v extent.f w.old p.now q.now) which x) w.new result }
{
    let count = ring::list_around(w, extent, which, x);
    open_listed(w, p, q, extent, n, x, count, bounds)
}

// After a fold: opens keep with each present neighbour, keep first. Says how many pairs are open.
pub fn open_neighbours(
    w: &mut [u32],
    p: &[f32],
    q: &[f64],
    extent: Extent,
    n: usize,
    keep: u32,
    bounds: Bounds,
) -> usize
    requires tidy { (Tidy extent.v extent.f w.old) × ((keep < extent.v) × ((3 * extent.v ≤ length p.now) × (10 * extent.v ≤ length q.now))) }
    requires room { n + length (opened (rules_of bounds.limit bounds.size) (mesh_of extent.v extent.f w.old p.now q.now) keep) ≤ 3 * extent.f }
    ensures { Added extent.v extent.f w.old n (opened (rules_of bounds.limit bounds.size) (mesh_of extent.v extent.f w.old p.now q.now) keep) w.new result }
{
    open_around(w, p, q, extent, n, Neighbours::Every, keep, bounds)
}

// At the start: opens each pair that a face edge runs along from its lower to its higher number. Says how many pairs are open.
pub fn open_start(w: &mut [u32], p: &[f32], q: &[f64], extent: Extent, bounds: Bounds) -> usize
    requires fact_1 { Tidy extent.v extent.f w.old }
    requires fact_2 { 3 * extent.v ≤ length p.now }
    requires fact_3 { 10 * extent.v ≤ length q.now }
    ensures { Added extent.v extent.f w.old 0 (started (rules_of bounds.limit bounds.size) (mesh_of extent.v extent.f w.old p.now q.now)).«open» w.new result }
{
    let mut n = 0;
    for x in 0..extent.v {
        n = open_around(w, p, q, extent, n, Neighbours::Rising, x as u32, bounds);
    }
    n
}
