// Pairs in the memory: the open pairs, the entries of the queue with their costs and stamps, and the folds that are written down.
ghost use Rattle.std.specs.Prelude.{◌≡◌, ◌+◌, ◌*◌, ◌<◌, length, set};
ghost use Rattle.std.proofs.lemmas.List.Edits.{sets};
ghost use Rattle.memory.specs.Layout.{keeps_from, removes_from, stamps_from, entries_from, costs_from};
ghost use Rattle.memory.specs.Memory.{Room};
ghost use Rattle.memory.specs.Entries.{pair_at, stamp, cost_in, entry_pair, entry_in, entry_words, EntryRoom, EntrySet, with_fold};

use crate::layout::Extent;
use crate::points::{point_at, set_point};
use geometry::Point;
use walk::Pair;

// What is stored of a pair in the queue: the cost and the place that it had when the entry was made, and the stamps that its points had then.
#[derive(Clone, Copy)]
pub struct Entry {
    pub pair: Pair,
    pub cost: f64,
    pub place: Point,
    pub keepstamp: u32,
    pub removestamp: u32,
}

// Writes two cells, one after the other.
fn set_two(w: &mut [u32], i: usize, first: u32, j: usize, second: u32)
    requires fact_1 { i < length w.old }
    requires fact_2 { j < length w.old }
    ensures { w.new ≡ set (set w.old i first) j second }
{
    w[i] = first;
    w[j] = second;
}

// The point that stays, of the pair in a place.
pub fn keep_at(w: &[u32], extent: Extent, i: usize) -> u32
    requires { (i < 3 * extent.f) × (Room extent.v extent.f w.now) }
    ensures { result ≡ (pair_at extent.v extent.f w.now i).keep }
{
    w[7 * extent.f + 4 * extent.v + i]
}

// The point that goes.
pub fn remove_at(w: &[u32], extent: Extent, i: usize) -> u32
    requires { (i < 3 * extent.f) × (Room extent.v extent.f w.now) }
    ensures { result ≡ (pair_at extent.v extent.f w.now i).remove }
{
    w[10 * extent.f + 4 * extent.v + i]
}

// Puts a pair into a place.
pub fn set_pair(w: &mut [u32], extent: Extent, i: usize, keep: u32, remove: u32)
    requires { (i < 3 * extent.f) × (Room extent.v extent.f w.old) }
    ensures { w.new ≡ set (set w.old (keeps_from extent.v extent.f + i) keep) (removes_from extent.v extent.f + i) remove }
{
    set_two(
        w,
        7 * extent.f + 4 * extent.v + i,
        keep,
        10 * extent.f + 4 * extent.v + i,
        remove,
    );
}

// A point's stamp.
pub fn stamp_at(w: &[u32], extent: Extent, x: usize) -> u32
    requires { (x < extent.v) × (Room extent.v extent.f w.now) }
    ensures { result ≡ stamp extent.v extent.f w.now x }
{
    w[7 * extent.f + 3 * extent.v + x]
}

// Stamps a point.
pub fn set_stamp(w: &mut [u32], extent: Extent, x: usize, value: u32)
    requires { (x < extent.v) × (Room extent.v extent.f w.old) }
    ensures { w.new ≡ set w.old (stamps_from extent.v extent.f + x) value }
{
    w[7 * extent.f + 3 * extent.v + x] = value;
}

// The cost of the entry in a place.
pub fn cost_at(q: &[f64], v: usize, i: usize) -> f64
    requires { costs_from v + i < length q.now }
    ensures { result ≡ cost_in v q.now i }
{
    q[10 * v + i]
}

// The pair of the entry in a place.
pub fn entry_pair(w: &[u32], extent: Extent, i: usize) -> Pair
    requires { (i < 3 * extent.f) × (Room extent.v extent.f w.now) }
    ensures { result ≡ entry_pair extent.v extent.f w.now i }
{
    let at = 7 * extent.f + 4 * extent.v + 4 * i;
    Pair {
        keep: w[at],
        remove: w[at + 1],
    }
}

// The entry in a place.
pub fn entry_at(w: &[u32], p: &[f32], q: &[f64], extent: Extent, i: usize) -> Entry
    requires fact_1 { i < 3 * extent.f }
    requires fact_2 { EntryRoom extent.v extent.f w.now p.now q.now }
    ensures { result ≡ entry_in extent.v extent.f w.now p.now q.now i }
{
    let pair = entry_pair(w, extent, i);
    let place = point_at(p, extent.v + i);
    let at = 7 * extent.f + 4 * extent.v + 4 * i;
    Entry {
        pair,
        cost: cost_at(q, extent.v, i),
        place,
        keepstamp: w[at + 2],
        removestamp: w[at + 3],
    }
}

// Writes the four numbers of an entry into its place.
fn set_words(w: &mut [u32], extent: Extent, i: usize, entry: Entry)
    requires fact_1 { i < 3 * extent.f }
    requires fact_2 { Room extent.v extent.f w.old }
    ensures { w.new ≡ sets w.old (entries_from extent.v extent.f + 4 * i) (entry_words entry) }
{
    let pair = entry.pair;
    let at = 7 * extent.f + 4 * extent.v + 4 * i;
    w[at] = pair.keep;
    w[at + 1] = pair.remove;
    w[at + 2] = entry.keepstamp;
    w[at + 3] = entry.removestamp;
}

// Writes an entry into a place.
pub fn set_entry(
    w: &mut [u32],
    p: &mut [f32],
    q: &mut [f64],
    extent: Extent,
    i: usize,
    entry: Entry,
)
    requires fact_1 { i < 3 * extent.f }
    requires fact_2 { EntryRoom extent.v extent.f w.old p.old q.old }
    ensures { EntrySet extent.v extent.f w.old p.old q.old i entry w.new p.new q.new }
{
    set_words(w, extent, i, entry);
    let place = entry.place;
    set_point(p, extent.v + i, place);
    q[10 * extent.v + i] = entry.cost;
}

// Writes a fold down, after others.
pub fn note_fold(w: &mut [u32], extent: Extent, folds: usize, pair: Pair)
    requires { (folds < extent.f) × (Room extent.v extent.f w.old) }
    ensures { w.new ≡ with_fold extent.v extent.f folds pair.keep pair.remove w.old }
{
    let at = 21 * extent.f + 5 * extent.v + 2 * folds;
    set_two(w, at, pair.keep, at + 1, pair.remove);
}
