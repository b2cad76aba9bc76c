// The error of a point.
ghost use Rattle.std.specs.Prelude.{◌≡◌};
ghost use Rattle.placement.specs.Errors.{row_product, error_at};

use geometry::{Point, Quadric};

// Two rows of four, entry times entry, summed in index order.
fn row_product(left: [f64; 4], right: [f64; 4]) -> f64
    ensures { result ≡ row_product left right }
{
    ((left[0] * right[0] + left[1] * right[1]) + left[2] * right[2]) + left[3] * right[3]
}

// A quadric's error at a point, which may be below zero.
pub fn error_at(q: Quadric, p: Point) -> f64
    ensures { result ≡ error_at q p }
{
    let h = [bits::widen(p.x), bits::widen(p.y), bits::widen(p.z), 1.0];
    let sums = [
        row_product(h, [q.m11, q.m12, q.m13, q.m14]),
        row_product(h, [q.m12, q.m22, q.m23, q.m24]),
        row_product(h, [q.m13, q.m23, q.m33, q.m34]),
        row_product(h, [q.m14, q.m24, q.m34, q.m44]),
    ];
    row_product(sums, h)
}
