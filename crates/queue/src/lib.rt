// The queue of the heap walk: entries with a pair, a cost, a place and two stamps, in lent memory. The least is on top.
//
// An entry becomes old when one of its points is touched by a fold. Old entries stay until they come to the top, or until they are thrown out: where the
// caller asks for it, and where the queue is full.
#![tactic(auto)]

ghost use Rattle.std.specs.Prelude.{◌≡◌, ◌+◌, ◌*◌, ◌^◌, ◌≤◌, ◌<◌, Float, length, set};
ghost use Rattle.placement.specs.Pairs.{pair_place, pair_cost};
ghost use Rattle.memory.specs.Memory.{Room};
ghost use Rattle.memory.specs.Points.{vertex_at};
ghost use Rattle.memory.specs.Entries.{stamp, EntryRoom};
ghost use Rattle.queue.specs.State.{open_in};
ghost use Rattle.queue.specs.Clauses.Queued.{Queue, Named, QueueNamed, is_present, Kept};
ghost use Rattle.queue.specs.Clauses.Changes.{Emptied, Popped, TookCurrent, CurrentFirst, ThrownOut, RoomMade, entry_of, Pushed};
ghost use Rattle.memory.specs.Layout.{stamps_from};

mod order;

use memory::{Entry, Extent, entry_at, set_entry, set_stamp, stamp_at};
use placement::Fold;
use walk::Pair;

// Makes every entry of a point old.
pub fn bump(w: &mut [u32], extent: Extent, x: usize)
    requires fact_1 { x < extent.v }
    requires fact_2 { Room extent.v extent.f w.old }
    requires fact_3 { stamp extent.v extent.f w.old x + 1 < 2 ^ 32 }
    ensures { w.new ≡ set w.old (stamps_from extent.v extent.f + x) (stamp extent.v extent.f w.old x + 1) }
{
    let old = stamp_at(w, extent, x);
    set_stamp(w, extent, x, old + 1);
}

// The queue at the start: every stamp is 0.
pub fn empty(w: &mut [u32], p: &[f32], q: &[f64], extent: Extent)
    requires { EntryRoom extent.v extent.f w.old p.now q.now }
    ensures { Emptied extent.v extent.f w.old p.now q.now w.new }
{
    lists::fill(w, memory::stamps_from(extent), extent.v, 0);
}

// Whether an entry is current.
pub fn is_current(w: &[u32], extent: Extent, entry: Entry) -> bool
    requires fact_1 { Room extent.v extent.f w.now }
    requires fact_2 { Named extent.v entry }
    ensures { result ≡ is_present extent.v extent.f w.now entry }
{
    let pair = entry.pair;
    (entry.keepstamp == stamp_at(w, extent, pair.keep as usize))
        & (entry.removestamp == stamp_at(w, extent, pair.remove as usize))
}

// Takes the entry on top off: the last one goes down from there.
pub fn pop(w: &mut [u32], p: &mut [f32], q: &mut [f64], extent: Extent, n: usize) -> Entry
    requires fact_1 { 0 < n }
    requires fact_2 { Queue extent.v extent.f w.old p.old q.old n }
    ensures { Popped extent.v extent.f w.old p.old q.old n w.new p.new q.new result }
{
    let top = entry_at(w, p, q, extent, 0);
    let last = entry_at(w, p, q, extent, n - 1);
    order::sift_down(w, p, q, extent, 0, n - 1, last);
    top
}

// Takes entries off the top up to the first current one. Hands it out with the number of entries left, and nothing where none was current.
pub fn take_current(
    w: &mut [u32],
    p: &mut [f32],
    q: &mut [f64],
    extent: Extent,
    n: usize,
) -> Option<(Entry, usize)>
    requires fact_1 { Queue extent.v extent.f w.old p.old q.old n }
    requires fact_2 { QueueNamed extent.v extent.f w.old p.old q.old n }
    ensures { TookCurrent extent.v extent.f w.old p.old q.old n w.new p.new q.new result }
{
    for left in (0..n).rev() {
        let top = pop(w, p, q, extent, left + 1);
        if is_current(w, extent, top) {
            return Some((top, left));
        }
    }
    None
}

// Puts the current entries first. Says how many they are. Each entry is written where the next current one goes, and counted where it is current: which ones are
// can't be guessed, so no work hangs on it.
fn gather_current(w: &mut [u32], p: &mut [f32], q: &mut [f64], extent: Extent, n: usize) -> usize
    requires fact_1 { n ≤ 3 * extent.f }
    requires fact_2 { EntryRoom extent.v extent.f w.old p.old q.old }
    requires fact_3 { QueueNamed extent.v extent.f w.old p.old q.old n }
    ensures { CurrentFirst extent.v extent.f w.old p.old q.old n w.new p.new q.new result }
{
    let mut kept = 0;
    for i in 0..n {
        let entry = entry_at(w, p, q, extent, i);
        let stays = is_current(w, extent, entry);
        set_entry(w, p, q, extent, kept, entry);
        if stays {
            kept += 1;
        }
    }
    kept
}

// Throws the old entries out. Says how many stay.
pub fn throw_out(w: &mut [u32], p: &mut [f32], q: &mut [f64], extent: Extent, n: usize) -> usize
    requires fact_1 { Queue extent.v extent.f w.old p.old q.old n }
    requires fact_2 { QueueNamed extent.v extent.f w.old p.old q.old n }
    ensures { ThrownOut extent.v extent.f w.old p.old q.old n w.new p.new q.new result }
{
    let kept = gather_current(w, p, q, extent, n);
    order::settle(w, p, q, extent, kept);
    kept
}

// The same as `take_current`, but where that is asked for all old entries are thrown out first.
pub fn take_first(
    w: &mut [u32],
    p: &mut [f32],
    q: &mut [f64],
    extent: Extent,
    n: usize,
    thin: bool,
) -> Option<(Entry, usize)>
    requires fact_1 { Queue extent.v extent.f w.old p.old q.old n }
    requires fact_2 { QueueNamed extent.v extent.f w.old p.old q.old n }
    ensures { TookCurrent extent.v extent.f w.old p.old q.old n w.new p.new q.new result }
{
    if thin {
        let kept = throw_out(w, p, q, extent, n);
        return take_current(w, p, q, extent, kept);
    }
    take_current(w, p, q, extent, n)
}

// Makes room for an entry: a full queue throws its old entries out. Says how many there are.
fn make_room(w: &mut [u32], p: &mut [f32], q: &mut [f64], extent: Extent, n: usize) -> usize
    requires fact_1 { Queue extent.v extent.f w.old p.old q.old n }
    requires fact_2 { QueueNamed extent.v extent.f w.old p.old q.old n }
    requires fact_3 { length (open_in extent.v extent.f w.old n) < 3 * extent.f }
    ensures { RoomMade extent.v extent.f w.old p.old q.old n w.new p.new q.new result }
{
    if n == 3 * extent.f {
        return throw_out(w, p, q, extent, n);
    }
    n
}

// The entry of a pair, with the present stamps of its points.
fn entry_of(w: &[u32], extent: Extent, fold: Fold, cost: f64) -> Entry
    requires fact_1 { Room extent.v extent.f w.now }
    requires fact_2 { (fold.keep < extent.v) × (fold.remove < extent.v) }
    ensures { result ≡ entry_of extent.v extent.f w.now fold.keep fold.remove cost fold.place }
{
    let pair = Pair {
        keep: fold.keep,
        remove: fold.remove,
    };
    let place = fold.place;
    Entry {
        pair,
        cost,
        place,
        keepstamp: stamp_at(w, extent, fold.keep as usize),
        removestamp: stamp_at(w, extent, fold.remove as usize),
    }
}

// Puts an entry into the queue, with the present stamps. A full queue throws its old entries out first. Says how many there are.
pub fn push(
    w: &mut [u32],
    p: &mut [f32],
    q: &mut [f64],
    extent: Extent,
    n: usize,
    fold: Fold,
    cost: f64,
) -> usize
    requires fact_1 { Queue extent.v extent.f w.old p.old q.old n }
    requires fact_2 { QueueNamed extent.v extent.f w.old p.old q.old n }
    requires fact_3 { (fold.keep < extent.v) × (fold.remove < extent.v) }
    requires fact_4 { length (open_in extent.v extent.f w.old n) < 3 * extent.f }
    ensures fact_1 { Pushed extent.v extent.f w.old p.old q.old n fold.keep fold.remove cost fold.place w.new p.new q.new result }
    ensures fact_2 { ((bound : Float) → Kept extent.v extent.f w.old p.old q.old n bound → cost ≡ pair_cost bound (vertex_at extent.v extent.f w.old p.old q.old fold.keep) (vertex_at extent.v extent.f w.old p.old q.old fold.remove) → fold.place ≡ pair_place bound (vertex_at extent.v extent.f w.old p.old q.old fold.keep) (vertex_at extent.v extent.f w.old p.old q.old fold.remove) → Kept extent.v extent.f w.new p.new q.new result bound) }
{
    let count = make_room(w, p, q, extent, n);
    let entry = entry_of(w, extent, fold, cost);
    order::sift_up(w, p, q, extent, count, entry);
    count + 1
}
