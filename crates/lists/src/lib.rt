// What holds of lists: sums, counts, those that pass a test; and stretches of cells that are filled and copied.
#![tactic(auto)]

ghost use Rattle.std.specs.Prelude.{◌≡◌, ◌+◌, ◌≤◌, length};
ghost use Rattle.lists.specs.Frames.{Written};
ghost use Rattle.lists.specs.Lists.{overlaid};

// The same number to a stretch of cells.
pub fn fill(w: &mut [u32], start: usize, n: usize, value: u32)
    requires { start + n ≤ length w.old }
    ensures { Written start n (λ i. value) w.old w.new }
{
    w[start..start + n].fill(value);
}

// Copies a list to the beginning of another.
pub fn copy<T: Copy>(list: &[T], out: &mut [T])
    requires { length list.now ≤ length out.old }
    ensures { out.new ≡ overlaid list.now out.old }
{
    for i in 0..list.len() {
        out[i] = list[i];
    }
}
