// Pairs are opened into the queue: at the start, and after a fold. Each eligible pair gets an entry with its cost and its place.
ghost use Rattle.std.specs.Prelude.{◌+◌, ◌*◌, ◌≤◌, ◌<◌, [], ◌∷◌, length, ◌≡◌};
ghost use Rattle.walk.specs.Walk.{started};
ghost use Rattle.mesh.specs.Clauses.Chains.{Tidy};
ghost use Rattle.memory.specs.Points.{quadric_at, mesh_of};
ghost use Rattle.meaning.specs.Arithmetic.{rules_of};
ghost use Rattle.openpairs.specs.Clauses.Edges.{opened_around};
ghost use Rattle.queue.specs.State.{open_in};
ghost use Rattle.memory.specs.Memory.{Room, around_in};
ghost use Rattle.heapwalk.specs.Clauses.Entering.{Open, Entered, Started};
ghost use Rattle.heapwalk.specs.Clauses.Listing.{pairs_with, Enterable, EnteredBeside};
ghost use Rattle.heapwalk.specs.Clauses.Reading.{PointsListed, PartRead, ReadBefore, ReadAt};
ghost use Rattle.memory.specs.Layout.{costs_to, places_to};

use geometry::Quadric;
use memory::{Extent, vertex_at, vertex_with};
use placement::pair::pair_candidate;
use placement::{Bounds, Fold};
use ring::Neighbours;

// How many quadrics are read at a time.
const AT_A_TIME: usize = 8;

// Copies the quadrics of some listed points, from one on, side by side.
fn read_part(w: &[u32], q: &[f64], extent: Extent, from: usize, some: usize, near: &mut [f64])
    requires fact_1 { Room extent.v extent.f w.now }
    requires fact_2 { from + some ≤ extent.v }
    requires fact_3 { PointsListed extent.v extent.f w.now (from + some) }
    requires fact_4 { 10 * extent.v ≤ length q.now }
    requires fact_5 { 10 * some ≤ length near.old }
    ensures { PartRead extent.v extent.f w.now q.now from some near.old near.new }
{
    for j in 0..some {
        let y = memory::around_at(w, extent, from + j);
        memory::set_quadric(near, j, memory::quadric_at(q, y as usize));
    }
}

// Has the quadric of listed point i at hand: where a part begins, those of the part are read. Each lies far from the next, and reads that don't wait for one
// another take hardly longer than one.
fn read_ahead(w: &[u32], q: &[f64], extent: Extent, count: usize, i: usize, near: &mut [f64])
    requires fact_1 { Room extent.v extent.f w.now }
    requires fact_2 { (i < count) × (count ≤ extent.v) }
    requires fact_3 { PointsListed extent.v extent.f w.now count }
    requires fact_4 { 10 * extent.v ≤ length q.now }
    requires fact_5 { ReadBefore extent.v extent.f w.now q.now count i near.old }
    ensures { ReadAt extent.v extent.f w.now q.now count i near.new }
{
    if i % AT_A_TIME == 0 {
        let some = (count - i).min(AT_A_TIME);
        read_part(w, q, extent, i, some, near);
    }
}

// Opens x with y, whose quadric is said, where the pair is eligible. Says how many entries there are.
fn enter_pair(
    w: &mut [u32],
    p: &mut [f32],
    q: &mut [f64],
    extent: Extent,
    n: usize,
    x: u32,
    y: u32,
    quadric: Quadric,
    bounds: Bounds,
) -> usize
    requires fact_1 { Enterable extent.v extent.f w.old p.old q.old n bounds.limit bounds.size x (y ∷ []) }
    requires fact_2 { quadric ≡ quadric_at q.old y }
    ensures { EnteredBeside extent.v extent.f w.old p.old q.old n bounds.limit bounds.size (pairs_with extent.v extent.f w.old p.old q.old bounds.limit bounds.size x (y ∷ [])) w.new p.new q.new result }
{
    let stays = vertex_at(w, p, q, extent, x as usize);
    let goes = vertex_with(w, p, extent, y as usize, quadric);
    let limit = bounds.limit;
    match pair_candidate(stays, goes, limit, bounds.size) {
        Some(choice) => {
            let fold = Fold {
                keep: x,
                remove: y,
                place: choice.place,
            };
            queue::push(w, p, q, extent, n, fold, choice.cost)
        }
        None => n,
    }
}

// Opens x with each of the points that are listed, where the pair is eligible. Says how many entries there are.
fn enter_listed(
    w: &mut [u32],
    p: &mut [f32],
    q: &mut [f64],
    extent: Extent,
    n: usize,
    x: u32,
    count: usize,
    bounds: Bounds,
) -> usize
    requires fact_1 { Enterable extent.v extent.f w.old p.old q.old n bounds.limit bounds.size x (around_in extent.v extent.f w.old count) }
    requires fact_2 { count ≤ extent.v }
    ensures { EnteredBeside extent.v extent.f w.old p.old q.old n bounds.limit bounds.size (pairs_with extent.v extent.f w.old p.old q.old bounds.limit bounds.size x (around_in extent.v extent.f w.old count)) w.new p.new q.new result }
{
    let mut near = [0.0f64; 80];
    let mut entries = n;
    for i in 0..count {
        read_ahead(w, q, extent, count, i, &mut near);
        let y = memory::around_at(w, extent, i);
        let quadric = memory::quadric_at(&near, i % AT_A_TIME);
        entries = enter_pair(w, p, q, extent, entries, x, y, quadric, bounds);
    }
    entries
}

// Opens the pairs around x: at the start along rising edges, after a fold with every neighbour. Says how many entries there are.
pub fn enter_around(
    w: &mut [u32],
    p: &mut [f32],
    q: &mut [f64],
    extent: Extent,
    n: usize,
    which: Neighbours,
    x: u32,
    bounds: Bounds,
) -> usize
    requires fact_1 { Open extent.v extent.f w.old p.old q.old n bounds.size }
    requires fact_2 { x < extent.v }
    requires room { length (open_in extent.v extent.f w.old n) + length (opened_around (rules_of bounds.limit bounds.size) (mesh_of extent.v extent.f w.old p.old q.old) which x) ≤ 3 * extent.f }
    ensures { Entered extent.v extent.f w.old p.old q.old n bounds.limit bounds.size (opened_around (rules_of bounds.limit bounds.size) (mesh_of extent.v extent.f w.old p.old q.old) which x) w.new p.new q.new result }
{
    let count = ring::list_around(w, extent, which, x);
    enter_listed(w, p, q, extent, n, x, count, bounds)
}

// At the start: an empty queue, and then each pair that a face edge runs along from its lower to its higher number. Says how many entries there are.
pub fn enter_start(
    w: &mut [u32],
    p: &mut [f32],
    q: &mut [f64],
    extent: Extent,
    bounds: Bounds,
) -> usize
    requires fact_1 { Tidy extent.v extent.f w.old }
    requires fact_2 { places_to extent.v extent.f ≤ length p.old }
    requires fact_3 { costs_to extent.v extent.f ≤ length q.old }
    ensures { Started extent.v extent.f w.old p.old q.old bounds.limit bounds.size (started (rules_of bounds.limit bounds.size) (mesh_of extent.v extent.f w.old p.old q.old)).«open» w.new p.new q.new result }
{
    queue::empty(w, p, q, extent);
    let mut n = 0;
    for x in 0..extent.v {
        n = enter_around(w, p, q, extent, n, Neighbours::Rising, x as u32, bounds);
    }
    n
}
