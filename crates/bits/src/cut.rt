// A float cut to a whole number, and the number of faces to reach.
ghost use Rattle.std.specs.Prelude.{◌≡◌};
ghost use Rattle.bits.specs.Cut as Cut;

// x without its fraction, as Rust's `as u64`: a NaN and what is below zero give 0, and what is too large gives the largest u64.
pub fn cut(x: f32) -> u64
    ensures { result ≡ Cut.cut x }
{
    if x > -1.0 {
        if x < 18446744073709551616.0 {
            return std::num::truncating_f32_to_u64(x);
        }
        return 0xffff_ffff_ffff_ffff;
    }
    0
}

// The number of faces to reach: `(1.0 - ratio) * faces` in f32, cut to a whole number.
pub fn target(ratio: f32, faces: u32) -> u64
    ensures { result ≡ Cut.target ratio faces }
{
    cut((1.0 - ratio) * std::num::nearest_u32_to_f32(faces))
}
