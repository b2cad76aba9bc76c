// The plain walk: the meaning of thinning, as code. Every cost is worked out anew at each step.
#![tactic(auto)]

ghost use Rattle.std.specs.Prelude.{◌≡◌, ◌+◌, ◌*◌, ◌≤◌, ◌<◌, length};
ghost use Rattle.memory.specs.Memory.{live_faces};
ghost use Rattle.mesh.specs.Clauses.Chains.{Tidy};
ghost use Rattle.openpairs.specs.State.{state_of};
ghost use Rattle.plainwalk.specs.Steps.{Holds, Found, PairTried, StepDone};
ghost use Rattle.plainwalk.specs.Whole.{WalkedFrom, WalkDone};

use memory::Extent;
use openpairs::Least;
use placement::Bounds;
use walk::{Closings, Pair, Reason};

// What a step did: it folded a pair, closed one for a reason, or found the walk at its end.
#[derive(Clone, Copy)]
pub enum Step {
    Folded(Pair),
    Closed(Pair, Reason),
    Ended,
}

// A step's answer, and the numbers of open pairs and live faces after it.
#[derive(Clone, Copy)]
pub struct Stepped {
    pub step: Step,
    pub open: usize,
    pub live: usize,
}

// The folds made, the pairs closed by reason, and the faces left.
#[derive(Clone, Copy)]
pub struct Walked {
    pub folds: usize,
    pub closed: Closings,
    pub live: usize,
}

// Tries the pair that was found: the mesh is folded where that is allowed, and then the pairs of its points are dropped and keep's opened anew; where it isn't
// allowed the pair is closed.
fn try_pair(
    w: &mut [u32],
    p: &mut [f32],
    q: &mut [f64],
    extent: Extent,
    open: usize,
    live: usize,
    least: Least,
    bounds: Bounds,
) -> Stepped
    requires fact_1 { Holds extent.v extent.f w.old p.old q.old «open» live }
    requires fact_2 { Found extent.v extent.f w.old p.old q.old «open» bounds.size least }
    ensures { PairTried extent.v extent.f w.old p.old q.old «open» least bounds.limit bounds.size w.new p.new q.new result }
{
    let fold = least.fold;
    let keep = fold.keep;
    let remove = fold.remove;
    match folding::try_fold(w, p, q, extent, fold) {
        Ok(gone) => {
            let kept = openpairs::drop_pairs(w, extent, open, keep, remove);
            let opened = openpairs::open_neighbours(w, p, q, extent, kept, keep, bounds);
            let left = live - gone;
            Stepped {
                step: Step::Folded(Pair { keep, remove }),
                open: opened,
                live: left,
            }
        }
        Err(reason) => {
            let at = least.at;
            let still_open = openpairs::close_pair(w, extent, open, at);
            Stepped {
                step: Step::Closed(Pair { keep, remove }, reason),
                open: still_open,
                live,
            }
        }
    }
}

// One step of the plain walk: the least open pair is folded or closed; at the target, or with no open pair, the walk has ended.
pub fn plain_step(
    w: &mut [u32],
    p: &mut [f32],
    q: &mut [f64],
    extent: Extent,
    open: usize,
    live: usize,
    target: usize,
    bounds: Bounds,
) -> Stepped
    requires { Holds extent.v extent.f w.old p.old q.old «open» live }
    ensures { StepDone extent.v extent.f w.old p.old q.old «open» target bounds.limit bounds.size w.new p.new q.new result }
{
    if live <= target {
        return Stepped {
            step: Step::Ended,
            open,
            live,
        };
    }
    if open == 0 {
        return Stepped {
            step: Step::Ended,
            open,
            live,
        };
    }
    let least = openpairs::least_pair(w, p, q, extent, open, bounds);
    try_pair(w, p, q, extent, open, live, least, bounds)
}

// Takes steps of the plain walk from any state, to the end.
fn walk_on(
    w: &mut [u32],
    p: &mut [f32],
    q: &mut [f64],
    extent: Extent,
    open: usize,
    live: usize,
    target: usize,
    bounds: Bounds,
) -> Walked
    requires { Holds extent.v extent.f w.old p.old q.old «open» live }
    ensures { WalkedFrom extent.v extent.f (state_of extent.v extent.f w.old p.old q.old «open») w.old p.old q.old target bounds.limit bounds.size w.new p.new q.new result }
{
    let mut pairs_open = open;
    let mut faces_live = live;
    let mut folds = 0;
    let mut closed = Closings::default();
    loop {
        let stepped = plain_step(w, p, q, extent, pairs_open, faces_live, target, bounds);
        pairs_open = stepped.open;
        faces_live = stepped.live;
        let step = stepped.step;
        match step {
            Step::Folded(pair) => {
                memory::note_fold(w, extent, folds, pair);
                folds += 1;
            }
            Step::Closed(_, reason) => {
                closed = closed.with(reason);
            }
            Step::Ended => {
                return Walked {
                    folds,
                    closed,
                    live: faces_live,
                };
            }
        }
    }
}

// The plain walk from a mesh that is laid out: it opens the first pairs and takes steps to the end.
pub fn plain_walk(
    w: &mut [u32],
    p: &mut [f32],
    q: &mut [f64],
    extent: Extent,
    target: usize,
    bounds: Bounds,
) -> Walked
    requires fact_1 { Tidy extent.v extent.f w.old }
    requires fact_2 { length (live_faces extent.f w.old) ≡ extent.f }
    requires fact_3 { 3 * extent.v ≤ length p.old }
    requires fact_4 { 10 * extent.v ≤ length q.old }
    ensures { WalkDone extent.v extent.f w.old p.old q.old target bounds.limit bounds.size w.new p.new q.new result }
{
    let open = openpairs::open_start(w, p, q, extent, bounds);
    walk_on(w, p, q, extent, open, extent.f, target, bounds)
}
