// The steps of a fold over the gathered faces: kill, and list again.
ghost use Rattle.std.specs.Prelude.{◌≡◌, true, ◌+◌, ◌*◌, ◌≤◌, ◌<◌, ltb, length};
ghost use Rattle.lists.specs.Lists.{count, every, stretch};
ghost use Rattle.walk.specs.Faces.{holds, face_at};
ghost use Rattle.folding.specs.Clauses.Steps.{in_turn, killed, corner_of, moved, relisted};
ghost use Rattle.memory.specs.Layout.{firsts_from};

// Kills the face in a slot if it holds x. Says whether it did.
fn kill_face(w: &mut [u32], f: usize, k: usize, x: u32) -> bool
    requires { (k < f) × (4 * f ≤ length w.old) }
    ensures killed { w.new ≡ killed f x k w.old }
    ensures held { result ≡ holds x (face_at w.old k) }
{
    let held = memory::face_in(w, f, k).holds(x);
    if held {
        memory::set_live(w, f, k, 0);
    }
    held
}

// Kills the faces of a list of slots that hold x. Says how many of the list hold it.
pub fn kill(w: &mut [u32], f: usize, list: usize, n: usize, x: u32) -> usize
    requires fact_1 { every (λ k. ltb k f) (stretch w.old list n) ≡ true }
    requires fact_2 { (4 * f ≤ list) × (list + n ≤ length w.old) }
    ensures { (w.new ≡ in_turn (killed f x) (stretch w.old list n) w.old) × (result ≡ count (λ k. holds x (face_at w.old k)) (stretch w.old list n)) }
{
    let mut gone = 0;
    for i in 0..n {
        let k = ring::slot_at(w, list, i);
        if kill_face(w, f, k, x) {
            gone += 1;
        }
    }
    gone
}

// Which corner of the face in a slot is at x.
fn corner_of(w: &[u32], k: usize, x: u32) -> usize
    requires { 3 * k + 2 < length w.now }
    ensures { result ≡ corner_of w.now k x }
{
    let first = 3 * k;
    if memory::corner_at(w, first) == x {
        return first;
    }
    if memory::corner_at(w, first + 1) == x {
        return first + 1;
    }
    first + 2
}

// Puts a corner at another point, and at the head of its chain.
fn move_corner(w: &mut [u32], f: usize, c: usize, new: u32)
    requires { (c < 3 * f) × (firsts_from f + new < length w.old) × (f ≤ 131072) }
    ensures { w.new ≡ moved f c new w.old }
{
    memory::set_corner(w, c, new);
    mesh::push_corner(w, f, c, new as usize);
}

// In a slot's face, if it is live, the corner at old goes to new and is listed there.
fn relist_face(w: &mut [u32], f: usize, k: usize, old: u32, new: u32)
    requires { (k < f) × (firsts_from f + new < length w.old) × (f ≤ 131072) }
    ensures { w.new ≡ relisted f old new k w.old }
{
    if memory::is_live(w, f, k) {
        let c = corner_of(w, k, old);
        move_corner(w, f, c, new);
    }
}

// The same for each slot of a list.
pub fn relist(w: &mut [u32], f: usize, list: usize, n: usize, old: u32, new: u32)
    requires fact_1 { every (λ k. ltb k f) (stretch w.old list n) ≡ true }
    requires fact_2 { (firsts_from f + new < list) × (list + n ≤ length w.old) × (f ≤ 131072) }
    ensures { w.new ≡ in_turn (relisted f old new) (stretch w.old list n) w.old }
{
    for i in 0..n {
        let k = ring::slot_at(w, list, i);
        relist_face(w, f, k, old, new);
    }
}
