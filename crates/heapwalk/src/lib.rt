// The heap walk: the same folds as the plain walk, in the same order, with the open pairs in a queue.
#![tactic(auto)]

ghost use Rattle.std.specs.Prelude.{◌≡◌, ◌-◌, ◌/◌, ◌≤◌, cond, length};
ghost use Rattle.walk.specs.Pairs.{pair_of};
ghost use Rattle.walk.specs.Walk.{tried};
ghost use Rattle.memory.specs.Memory.{live_faces};
ghost use Rattle.mesh.specs.Clauses.Chains.{Tidy};
ghost use Rattle.memory.specs.Points.{mesh_of};
ghost use Rattle.meaning.specs.Arithmetic.{rules_of};
ghost use Rattle.plainwalk.specs.Moments.{moment};
ghost use Rattle.heapwalk.specs.Steps.{HeapHolds, HeapStepDone};
ghost use Rattle.heapwalk.specs.Clauses.Trying.{PairHolds, PairAnswer, ended_with};
ghost use Rattle.heapwalk.specs.Chain.{ChainFrom, HeapWalked};
ghost use Rattle.memory.specs.Layout.{costs_to, places_to};

mod entering;

use memory::{Entry, Extent};
use placement::{Bounds, Fold};
use plainwalk::{Step, Stepped, Walked};
use ring::Neighbours;
use walk::{Closings, Pair};

// A step, and how many more entries there are for what it put in.
#[derive(Clone, Copy)]
pub struct Paced {
    pub stepped: Stepped,
    pub pushed: usize,
}

// Tries a pair that is off the queue: the mesh is folded where that is allowed, and then both stamps rise and the pairs around keep are entered; where it isn't
// allowed the pair is closed, and its entry is off the queue already.
fn try_pair(
    w: &mut [u32],
    p: &mut [f32],
    q: &mut [f64],
    extent: Extent,
    entries: usize,
    live: usize,
    fold: Fold,
    bounds: Bounds,
) -> Paced
    requires { PairHolds extent.v extent.f w.old p.old q.old entries live bounds.size fold.keep fold.remove fold.place }
    ensures { PairAnswer extent.v extent.f w.old p.old q.old entries fold.keep fold.remove bounds.limit bounds.size (tried (rules_of bounds.limit bounds.size) (mesh_of extent.v extent.f w.old p.old q.old) (pair_of fold.keep fold.remove)) w.new p.new q.new result.stepped }
{
    let keep = fold.keep;
    let remove = fold.remove;
    match folding::try_fold(w, p, q, extent, fold) {
        Ok(gone) => {
            queue::bump(w, extent, keep as usize);
            queue::bump(w, extent, remove as usize);
            let more = entering::enter_around(
                w,
                p,
                q,
                extent,
                entries,
                Neighbours::Every,
                keep,
                bounds,
            );
            let left = live - gone;
            let stepped = Stepped {
                step: Step::Folded(Pair { keep, remove }),
                open: more,
                live: left,
            };
            Paced {
                stepped,
                pushed: more.saturating_sub(entries),
            }
        }
        Err(reason) => {
            let stepped = Stepped {
                step: Step::Closed(Pair { keep, remove }, reason),
                open: entries,
                live,
            };
            Paced { stepped, pushed: 0 }
        }
    }
}

// The end, with so many entries and live faces left.
fn ended(entries: usize, live: usize) -> Paced
    ensures { result.stepped ≡ ended_with entries live }
{
    let stepped = Stepped {
        step: Step::Ended,
        open: entries,
        live,
    };
    Paced { stepped, pushed: 0 }
}

// One step: entries are taken off the top up to the first current one, whose pair is folded or closed. At the target, or with no current entry, the
// walk has ended. Where that is asked for, old entries are thrown out first.
pub fn heap_step(
    w: &mut [u32],
    p: &mut [f32],
    q: &mut [f64],
    extent: Extent,
    entries: usize,
    live: usize,
    target: usize,
    bounds: Bounds,
    thin: bool,
) -> Paced
    requires { HeapHolds extent.v extent.f w.old p.old q.old entries live bounds.size }
    ensures { HeapStepDone extent.v extent.f w.old p.old q.old entries target bounds.limit bounds.size w.new p.new q.new result.stepped }
{
    if live <= target {
        return ended(entries, live);
    }
    let Some((top, left)) = queue::take_first(w, p, q, extent, entries, thin) else {
        return ended(0, live);
    };
    let Entry { pair, place, .. } = top;
    let fold = Fold {
        keep: pair.keep,
        remove: pair.remove,
        place,
    };
    try_pair(w, p, q, extent, left, live, fold, bounds)
}

// How many entries may be put in before old ones are thrown out again, after a step. Where they were thrown out it is a third of those left, so that what a
// throw-out costs is paid for by the entries that are put in.
fn room_next(thin: bool, room: usize, pushed: usize, entries: usize) -> usize
    ensures { result ≡ cond thin (entries / 3) (room - pushed) }
{
    if thin {
        return entries / 3;
    }
    room.saturating_sub(pushed)
}

// Takes steps from any state, to the end.
fn walk_on(
    w: &mut [u32],
    p: &mut [f32],
    q: &mut [f64],
    extent: Extent,
    entries: usize,
    live: usize,
    target: usize,
    bounds: Bounds,
) -> Walked
    requires { HeapHolds extent.v extent.f w.old p.old q.old entries live bounds.size }
    ensures { ChainFrom extent.v extent.f target bounds.limit bounds.size (moment w.old p.old q.old entries live) w.new p.new q.new result }
{
    let mut queued = entries;
    let mut faces_live = live;
    let mut folds = 0;
    let mut closed = Closings::default();
    let mut room = entries / 3;
    loop {
        let thin = room == 0;
        let paced = heap_step(w, p, q, extent, queued, faces_live, target, bounds, thin);
        let stepped = paced.stepped;
        queued = stepped.open;
        room = room_next(thin, room, paced.pushed, queued);
        faces_live = stepped.live;
        let step = stepped.step;
        match step {
            Step::Folded(pair) => {
                memory::note_fold(w, extent, folds, pair);
                folds += 1;
            }
            Step::Closed(_, reason) => {
                closed = closed.with(reason);
            }
            Step::Ended => {
                return Walked {
                    folds,
                    closed,
                    live: faces_live,
                };
            }
        }
    }
}

// The heap walk from a mesh that is laid out: it opens the first pairs and takes steps to the end.
pub fn heap_walk(
    w: &mut [u32],
    p: &mut [f32],
    q: &mut [f64],
    extent: Extent,
    target: usize,
    bounds: Bounds,
) -> Walked
    requires fact_1 { Tidy extent.v extent.f w.old }
    requires fact_2 { length (live_faces extent.f w.old) ≡ extent.f }
    requires fact_3 { places_to extent.v extent.f ≤ length p.old }
    requires fact_4 { costs_to extent.v extent.f ≤ length q.old }
    ensures { HeapWalked extent.v extent.f target bounds.limit bounds.size w.old p.old q.old w.new p.new q.new result }
{
    let entries = entering::enter_start(w, p, q, extent, bounds);
    walk_on(w, p, q, extent, entries, extent.f, target, bounds)
}
