// The open pairs of the plain walk, in lent memory.
ghost use Rattle.std.specs.Prelude.{◌≡◌, ◌+◌, ◌*◌, ◌≤◌, ◌<◌, ltb, length};
ghost use Rattle.walk.specs.Pairs.{pair_of, apart};
ghost use Rattle.memory.specs.Memory.{Room};
ghost use Rattle.memory.specs.Points.{vertex_at};
ghost use Rattle.memory.specs.Entries.{pair_at};
ghost use Rattle.openpairs.specs.Clauses.Ranks.{ranked_at, rank};
ghost use Rattle.openpairs.specs.Clauses.Changes.{Named, LeastAt, Closed, Dropped};

use memory::{Extent, keep_at, remove_at, set_pair, vertex_at};
use placement::pair::{Vertex, pair_cost, pair_place};
use placement::{Bounds, Fold};

// The least open pair: its place in the list, and the pair with where it goes.
#[derive(Clone, Copy)]
pub struct Least {
    pub at: usize,
    pub fold: Fold,
}

// A pair, its place in the list, and its cost.
#[derive(Clone, Copy)]
pub struct Ranked {
    pub at: usize,
    pub cost: f64,
    pub keep: u32,
    pub remove: u32,
}

// Closes the pair in a place of the list: the last one takes its place. Says how many are left.
pub fn close_pair(w: &mut [u32], extent: Extent, n: usize, at: usize) -> usize
    requires fact_1 { at < n }
    requires fact_2 { n ≤ 3 * extent.f }
    requires fact_3 { Room extent.v extent.f w.old }
    ensures { Closed extent.v extent.f w.old n at w.new result }
{
    let last = n - 1;
    let keep = keep_at(w, extent, last);
    let remove = remove_at(w, extent, last);
    set_pair(w, extent, at, keep, remove);
    last
}

// Whether a pair touches neither point of another.
fn is_apart(first: u32, second: u32, keep: u32, remove: u32) -> bool
    ensures { result ≡ apart (pair_of keep remove) (pair_of first second) }
{
    !((first == keep) | (first == remove) | (second == keep) | (second == remove))
}

// Closes the pairs that touch either of two points: the others move up, in order. Says how many are left.
pub fn drop_pairs(w: &mut [u32], extent: Extent, n: usize, keep: u32, remove: u32) -> usize
    requires fact_1 { n ≤ 3 * extent.f }
    requires fact_2 { Room extent.v extent.f w.old }
    ensures { Dropped extent.v extent.f w.old n keep remove w.new result }
{
    let mut kept = 0;
    for i in 0..n {
        let first = keep_at(w, extent, i);
        let second = remove_at(w, extent, i);
        if is_apart(first, second, keep, remove) {
            set_pair(w, extent, kept, first, second);
            kept += 1;
        }
    }
    kept
}

// What the two points of a pair carry, keep's first.
pub fn ends_at(
    w: &[u32],
    p: &[f32],
    q: &[f64],
    extent: Extent,
    keep: u32,
    remove: u32,
) -> (Vertex, Vertex)
    requires room { Room extent.v extent.f w.now }
    requires points_long { 3 * extent.v ≤ length p.now }
    requires quadrics_long { 10 * extent.v ≤ length q.now }
    requires named { (keep < extent.v) × (remove < extent.v) }
    ensures { result ≡ (vertex_at extent.v extent.f w.now p.now q.now keep, vertex_at extent.v extent.f w.now p.now q.now remove) }
{
    let stays = vertex_at(w, p, q, extent, keep as usize);
    let goes = vertex_at(w, p, q, extent, remove as usize);
    (stays, goes)
}

// The pair in a place of the list, with its cost, which is worked out anew.
fn ranked_at(w: &[u32], p: &[f32], q: &[f64], extent: Extent, i: usize, bounds: Bounds) -> Ranked
    requires inside { i < 3 * extent.f }
    requires room { Room extent.v extent.f w.now }
    requires named { ((pair_at extent.v extent.f w.now i).keep < extent.v) × ((pair_at extent.v extent.f w.now i).remove < extent.v) }
    requires points_long { 3 * extent.v ≤ length p.now }
    requires quadrics_long { 10 * extent.v ≤ length q.now }
    ensures { result ≡ ranked_at extent.v extent.f w.now p.now q.now bounds.size i }
{
    let keep = keep_at(w, extent, i);
    let remove = remove_at(w, extent, i);
    let (stays, goes) = ends_at(w, p, q, extent, keep, remove);
    let cost = pair_cost(stays, goes, bounds.size);
    Ranked {
        at: i,
        cost,
        keep,
        remove,
    }
}

// Whether a pair comes before another in the order: by the key of its cost, then by keep, then by remove.
fn comes_first_by_key(a: Ranked, b: Ranked) -> bool
    ensures { result ≡ ltb (rank a) (rank b) }
{
    let first = (bits::order::order(a.cost), a.keep, a.remove);
    let second = (bits::order::order(b.cost), b.keep, b.remove);
    first < second
}

// The same. Keys are in the order of the costs, so they are worked out only where neither cost is below the other: for equal costs, which a zero's sign may
// still tell apart, and for a NaN, which no pair that is open has.
pub fn comes_first(a: Ranked, b: Ranked) -> bool
    ensures { result ≡ ltb (rank a) (rank b) }
{
    if a.cost < b.cost {
        return true;
    }
    if b.cost < a.cost {
        return false;
    }
    comes_first_by_key(a, b)
}

// The least open pair, and where it goes.
pub fn least_pair(
    w: &[u32],
    p: &[f32],
    q: &[f64],
    extent: Extent,
    n: usize,
    bounds: Bounds,
) -> Least
    requires fact_1 { 0 < n }
    requires fact_2 { n ≤ 3 * extent.f }
    requires fact_3 { Room extent.v extent.f w.now }
    requires fact_4 { Named extent.v extent.f w.now n }
    requires fact_5 { 3 * extent.v ≤ length p.now }
    requires fact_6 { 10 * extent.v ≤ length q.now }
    ensures { LeastAt extent.v extent.f w.now p.now q.now n bounds.limit bounds.size result }
{
    let mut least = ranked_at(w, p, q, extent, 0, bounds);
    for i in 1..n {
        let next = ranked_at(w, p, q, extent, i, bounds);
        if comes_first(next, least) {
            least = next;
        }
    }
    let Ranked {
        at,
        keep,
        remove,
        ..
    } = least;
    let (stays, goes) = ends_at(w, p, q, extent, keep, remove);
    let place = pair_place(stays, goes, bounds.size);
    let fold = Fold {
        keep,
        remove,
        place,
    };
    Least { at, fold }
}
