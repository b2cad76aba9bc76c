// Points, planes and quadrics by value. Each operation rounds once, in the order that its definition in specs/ writes.
#![tactic(auto)]

ghost use Rattle.std.specs.Prelude.{◌≡◌};
ghost use Rattle.geometry.specs.Points.{difference, cross, dot, over, norm, middle, normal, all_finite};
ghost use Rattle.geometry.specs.Planes.{plane_of, unit_normal};
ghost use Rattle.geometry.specs.Quadrics.{zero_quadric, of_plane, quadric_sum};

// A point, or the way from one point to another.
#[derive(Clone, Copy)]
pub struct Point {
    pub x: f32,
    pub y: f32,
    pub z: f32,
}

// A plane: where a*x + b*y + c*z + d is zero.
#[derive(Clone, Copy)]
pub struct Plane {
    pub a: f64,
    pub b: f64,
    pub c: f64,
    pub d: f64,
}

// A quadric: a symmetric 4x4 matrix, of which the upper right half is kept.
#[derive(Clone, Copy)]
pub struct Quadric {
    pub m11: f64,
    pub m12: f64,
    pub m13: f64,
    pub m14: f64,
    pub m22: f64,
    pub m23: f64,
    pub m24: f64,
    pub m33: f64,
    pub m34: f64,
    pub m44: f64,
}

impl Point {
    // This point less the other.
    pub fn difference(self, other: Point) -> Point
        ensures { result ≡ difference self other }
    {
        Point {
            x: self.x - other.x,
            y: self.y - other.y,
            z: self.z - other.z,
        }
    }

    // The cross product with the other.
    pub fn cross(self, other: Point) -> Point
        ensures { result ≡ cross self other }
    {
        Point {
            x: self.y * other.z - self.z * other.y,
            y: self.z * other.x - self.x * other.z,
            z: self.x * other.y - self.y * other.x,
        }
    }

    // The dot product with the other.
    pub fn dot(self, other: Point) -> f32
        ensures { result ≡ dot self other }
    {
        (self.x * other.x + self.y * other.y) + self.z * other.z
    }

    // Each part over a number.
    pub fn over(self, by: f32) -> Point
        ensures { result ≡ over self by }
    {
        Point {
            x: self.x / by,
            y: self.y / by,
            z: self.z / by,
        }
    }

    // The length of the way.
    pub fn norm(self) -> f32
        ensures { result ≡ norm self }
    {
        bits::root::root(self.dot(self))
    }

    // The point half way to the other.
    pub fn middle(self, other: Point) -> Point
        ensures { result ≡ middle self other }
    {
        Point {
            x: (self.x + other.x) * 0.5,
            y: (self.y + other.y) * 0.5,
            z: (self.z + other.z) * 0.5,
        }
    }

    // Whether every part is finite.
    pub fn all_finite(self) -> bool
        ensures { result ≡ all_finite self }
    {
        self.x.is_finite() & self.y.is_finite() & self.z.is_finite()
    }
}

// A face's normal.
pub fn normal(p0: Point, p1: Point, p2: Point) -> Point
    ensures { result ≡ normal p0 p1 p2 }
{
    p1.difference(p0).cross(p2.difference(p0))
}

// A face's normal over its norm.
fn unit_normal(p0: Point, p1: Point, p2: Point) -> Point
    ensures { result ≡ unit_normal p0 p1 p2 }
{
    let n = normal(p0, p1, p2);
    n.over(n.norm())
}

// A face's plane. A face too thin to have a normal gets a level one.
pub fn plane_of(p0: Point, p1: Point, p2: Point) -> Plane
    ensures { result ≡ plane_of p0 p1 p2 }
{
    let n = unit_normal(p0, p1, p2);
    if n.all_finite() {
        Plane {
            a: bits::widen(n.x),
            b: bits::widen(n.y),
            c: bits::widen(n.z),
            d: bits::widen(-n.dot(p0)),
        }
    } else {
        Plane {
            a: 0.0,
            b: 0.0,
            c: 1.0,
            d: 0.0,
        }
    }
}

impl Quadric {
    // The zero quadric.
    pub const ZERO: Quadric = Quadric {
        m11: 0.0,
        m12: 0.0,
        m13: 0.0,
        m14: 0.0,
        m22: 0.0,
        m23: 0.0,
        m24: 0.0,
        m33: 0.0,
        m34: 0.0,
        m44: 0.0,
    };

    // What each point's quadric starts at.
    pub fn start() -> Quadric
        ensures { result ≡ zero_quadric }
    {
        Quadric::ZERO
    }

    // The product of a plane with itself.
    pub fn of_plane(p: Plane) -> Quadric
        ensures { result ≡ of_plane p }
    {
        Quadric {
            m11: p.a * p.a,
            m12: p.a * p.b,
            m13: p.a * p.c,
            m14: p.a * p.d,
            m22: p.b * p.b,
            m23: p.b * p.c,
            m24: p.b * p.d,
            m33: p.c * p.c,
            m34: p.c * p.d,
            m44: p.d * p.d,
        }
    }

    // The sum with the other, entry by entry.
    pub fn sum(self, other: Quadric) -> Quadric
        ensures { result ≡ quadric_sum self other }
    {
        Quadric {
            m11: self.m11 + other.m11,
            m12: self.m12 + other.m12,
            m13: self.m13 + other.m13,
            m14: self.m14 + other.m14,
            m22: self.m22 + other.m22,
            m23: self.m23 + other.m23,
            m24: self.m24 + other.m24,
            m33: self.m33 + other.m33,
            m34: self.m34 + other.m34,
            m44: self.m44 + other.m44,
        }
    }
}
