// Float operations on bit patterns and on floats, each equal to its definition in specs/.
#![tactic(auto)]

ghost use Rattle.std.specs.Prelude.{◌≡◌};

pub mod cut;
pub mod narrow;
pub mod order;
pub mod patterns;
pub mod root;
mod table;

// An f32 as an f64, which holds every one. A NaN gives a NaN.
pub fn widen(x: f32) -> f64
    ensures { result ≡ x }
{
    std::num::f32_to_f64_with_nan(x)
}
