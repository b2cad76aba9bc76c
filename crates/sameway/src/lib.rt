// Whether two faces run the same way along an edge: the lowest face that uses an edge from the same point to the same point as a lower face does.
// Point by point, the edges that begin there are looked at in face order, and where each leads is noted at that point. So each edge is looked at once at most.
// No entry calls it yet: an input with such faces is not refused.
#![tactic(auto)]

ghost use Rattle.std.specs.Prelude.{◌≡◌, ◌+◌, ◌^◌, ◌≤◌, ◌<◌, length};
ghost use Rattle.lists.specs.Frames.{But};
ghost use Rattle.memory.specs.Layout.{folds_from};
ghost use Rattle.sameway.specs.Seen.{seen_from};
ghost use Rattle.sameway.specs.Clauses.{ahead, end_of, Ordered, SeenBefore, Looked, Lowest};

// From which point an edge to each point was seen last stands in the cells for the points around a point: one more than its number.
use memory::{
    Extent, around_at as seen_at, around_from as seen_from, corner_at, first_at, next_at,
    set_around as set_seen,
};

// The corner after a corner, around its face.
fn next_corner(c: usize) -> usize
    requires { c + 1 < 2 ^ 64 }
    ensures { result ≡ ahead c }
{
    if c % 3 == 2 { c - 2 } else { c + 1 }
}

// The point that the edge from a corner leads to.
fn edge_end(w: &[u32], c: usize) -> usize
    requires fact_1 { c + 1 < 2 ^ 64 }
    requires fact_2 { ahead c < length w.now }
    ensures { result ≡ end_of w.now c }
{
    corner_at(w, next_corner(c)) as usize
}

// The lowest corner at x whose edge leads where a lower one's does, or the number of all corners where there is none.
fn first_repeat(w: &mut [u32], extent: Extent, x: usize) -> usize
    requires fact_1 { Ordered extent.v extent.f w.old }
    requires fact_2 { x < extent.v }
    requires fact_3 { SeenBefore extent.v extent.f w.old x }
    ensures { Looked extent.v extent.f w.old x w.new result }
{
    let here = (x + 1) as u32;
    let mut link = first_at(w, extent.f, x) as usize;
    while link != 0 {
        let c = link - 1;
        let end = edge_end(w, c);
        if seen_at(w, extent, end) == here {
            return c;
        }
        set_seen(w, extent, end, here);
        link = next_at(w, extent.f, c) as usize;
    }
    3 * extent.f
}

// The lowest face that uses an edge from the same point to the same point as a lower face does, or the number of faces where none does.
pub fn lowest_repeat(w: &mut [u32], extent: Extent) -> usize
    requires { Ordered extent.v extent.f w.old }
    ensures lowest { Lowest extent.f w.old result }
    ensures but { But (seen_from extent.v extent.f) (folds_from extent.v extent.f) w.old w.new }
{
    lists::fill(w, seen_from(extent), extent.v, 0);
    let mut lowest = 3 * extent.f;
    for x in 0..extent.v {
        lowest = lowest.min(first_repeat(w, extent, x));
    }
    lowest / 3
}
