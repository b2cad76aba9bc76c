// The order of costs: a float's bits as a signed key whose order is IEEE totalOrder.
ghost use Rattle.std.specs.Prelude.{◌≡◌};
ghost use Rattle.bits.specs.Order.{order_key, float_key};

use crate::patterns::bits_of_f64;

// The key of a bit pattern, whatever it is. With the sign bit clear it is the pattern; with it set it is !m, which is -1 - m, for the rest m.
pub fn order_bits(b: u64) -> i64
    ensures { result ≡ order_key b }
{
    if b < 0x8000_0000_0000_0000 {
        b as i64
    } else {
        !((b - 0x8000_0000_0000_0000) as i64)
    }
}

// The key of a float. A NaN's bits are not fixed, so each NaN has the key of 7ff8000000000000.
pub fn order(x: f64) -> i64
    ensures { result ≡ float_key x }
{
    order_bits(bits_of_f64(x))
}
