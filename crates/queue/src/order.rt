// The order of the queue: a heap of four children to a place, by the cost of the entries, then keep, then remove. An entry that moves leaves a hole where
// it was, others are moved into the hole one after another, and it is written once, where the hole comes to rest.
ghost use Rattle.std.specs.Prelude.{◌≡◌, ◌+◌, ◌*◌, ◌≤◌, ◌<◌, length};
ghost use Rattle.memory.specs.Memory.{Room};
ghost use Rattle.memory.specs.Entries.{entry_in, EntryRoom, EntrySet};
ghost use Rattle.queue.specs.Stored.{ranked_of};
ghost use Rattle.queue.specs.Clauses.Ranks.{ranked_in, rank_in, Heap, lesser_of, LowestUnder};
ghost use Rattle.queue.specs.Clauses.Order.{ranks, Holed, Sunk, Sifted, Settled};
ghost use Rattle.memory.specs.Layout.{costs_to};

use memory::{Entry, Extent, entry_at, set_entry};
use openpairs::{Ranked, comes_first};

// What the entry in a place is compared by.
fn ranked_in(w: &[u32], q: &[f64], extent: Extent, i: usize) -> Ranked
    requires fact_1 { i < 3 * extent.f }
    requires fact_2 { Room extent.v extent.f w.now }
    requires fact_3 { costs_to extent.v extent.f ≤ length q.now }
    ensures { result ≡ ranked_in extent.v extent.f w.now q.now i }
{
    let pair = memory::entry_pair(w, extent, i);
    Ranked {
        at: i,
        cost: memory::cost_at(q, extent.v, i),
        keep: pair.keep,
        remove: pair.remove,
    }
}

// What an entry is compared by that is in no place.
fn ranked_of(entry: Entry) -> Ranked
    ensures { result ≡ ranked_of entry }
{
    let pair = entry.pair;
    Ranked {
        at: 0,
        cost: entry.cost,
        keep: pair.keep,
        remove: pair.remove,
    }
}

// Of two places the one whose entry comes first, and the first of them where the second is not among the n.
fn lesser_of(w: &[u32], q: &[f64], extent: Extent, n: usize, i: usize, j: usize) -> usize
    requires fact_1 { n ≤ 3 * extent.f }
    requires fact_2 { Room extent.v extent.f w.now }
    requires fact_3 { costs_to extent.v extent.f ≤ length q.now }
    requires fact_4 { i < n }
    ensures { result ≡ lesser_of (rank_in extent.v extent.f w.now q.now) n i j }
{
    if j < n && comes_first(ranked_in(w, q, extent, j), ranked_in(w, q, extent, i)) {
        j
    } else {
        i
    }
}

// Of the places under one, the first of which is among the n, the one whose entry comes first.
fn least_under(w: &[u32], q: &[f64], extent: Extent, n: usize, at: usize) -> usize
    requires fact_1 { n ≤ 3 * extent.f }
    requires fact_2 { Room extent.v extent.f w.now }
    requires fact_3 { costs_to extent.v extent.f ≤ length q.now }
    requires fact_4 { 4 * at + 1 < n }
    ensures { LowestUnder (rank_in extent.v extent.f w.now q.now) n at result }
{
    let first = 4 * at + 1;
    let second = lesser_of(w, q, extent, n, first, first + 1);
    let third = lesser_of(w, q, extent, n, second, first + 2);
    lesser_of(w, q, extent, n, third, first + 3)
}

// Moves the entry in a place into the hole.
fn move_entry(w: &mut [u32], p: &mut [f32], q: &mut [f64], extent: Extent, from: usize, hole: usize)
    requires fact_1 { from < 3 * extent.f }
    requires fact_2 { hole < 3 * extent.f }
    requires fact_3 { EntryRoom extent.v extent.f w.old p.old q.old }
    ensures { EntrySet extent.v extent.f w.old p.old q.old hole (entry_in extent.v extent.f w.old p.old q.old from) w.new p.new q.new }
{
    let entry = entry_at(w, p, q, extent, from);
    set_entry(w, p, q, extent, hole, entry);
}

// Moves the hole in place n, after the last one, up until the entry over it doesn't come after the one that is to stand there. Says where it is then.
fn rise(
    w: &mut [u32],
    p: &mut [f32],
    q: &mut [f64],
    extent: Extent,
    n: usize,
    entry: Entry,
) -> usize
    requires fact_1 { Holed extent.v extent.f w.old p.old q.old n n }
    requires fact_2 { Heap 0 (ranks (entry_in extent.v extent.f w.old p.old q.old)) n }
    ensures { Sunk extent.v extent.f (n + 1) 0 w.old p.old q.old n entry w.new p.new q.new result }
{
    let mut hole = n;
    while 0 < hole {
        let over = (hole - 1) / 4;
        if !comes_first(ranked_of(entry), ranked_in(w, q, extent, over)) {
            return hole;
        }
        move_entry(w, p, q, extent, over, hole);
        hole = over;
    }
    hole
}

// Moves the hole in place lo down among the first n until no entry under it comes before the one that is to stand there. Says where it is then.
fn sink(
    w: &mut [u32],
    p: &mut [f32],
    q: &mut [f64],
    extent: Extent,
    lo: usize,
    n: usize,
    entry: Entry,
) -> usize
    requires fact_1 { Holed extent.v extent.f w.old p.old q.old n lo }
    requires fact_2 { Heap (lo + 1) (ranks (entry_in extent.v extent.f w.old p.old q.old)) n }
    ensures { Sunk extent.v extent.f n lo w.old p.old q.old lo entry w.new p.new q.new result }
{
    let mut hole = lo;
    while 4 * hole + 1 < n {
        let first = least_under(w, q, extent, n, hole);
        if !comes_first(ranked_in(w, q, extent, first), ranked_of(entry)) {
            return hole;
        }
        move_entry(w, p, q, extent, first, hole);
        hole = first;
    }
    hole
}

// Puts an entry in after n others.
pub fn sift_up(w: &mut [u32], p: &mut [f32], q: &mut [f64], extent: Extent, n: usize, entry: Entry)
    requires fact_1 { Holed extent.v extent.f w.old p.old q.old n n }
    requires fact_2 { Heap 0 (ranks (entry_in extent.v extent.f w.old p.old q.old)) n }
    ensures { Sifted extent.v extent.f (n + 1) 0 w.old p.old q.old n entry w.new p.new q.new }
{
    let hole = rise(w, p, q, extent, n, entry);
    set_entry(w, p, q, extent, hole, entry);
}

// Puts an entry in at place lo or under it, among the first n.
pub fn sift_down(
    w: &mut [u32],
    p: &mut [f32],
    q: &mut [f64],
    extent: Extent,
    lo: usize,
    n: usize,
    entry: Entry,
)
    requires fact_1 { Holed extent.v extent.f w.old p.old q.old n lo }
    requires fact_2 { Heap (lo + 1) (ranks (entry_in extent.v extent.f w.old p.old q.old)) n }
    ensures { Sifted extent.v extent.f n lo w.old p.old q.old lo entry w.new p.new q.new }
{
    let hole = sink(w, p, q, extent, lo, n, entry);
    set_entry(w, p, q, extent, hole, entry);
}

// Makes a heap of the first n entries, in whatever order they are.
pub fn settle(w: &mut [u32], p: &mut [f32], q: &mut [f64], extent: Extent, n: usize)
    requires fact_1 { EntryRoom extent.v extent.f w.old p.old q.old }
    requires fact_2 { n ≤ 3 * extent.f }
    ensures { Settled extent.v extent.f n w.old p.old q.old w.new p.new q.new }
{
    for lo in (0..(n + 2) / 4).rev() {
        let entry = entry_at(w, p, q, extent, lo);
        sift_down(w, p, q, extent, lo, n, entry);
    }
}
