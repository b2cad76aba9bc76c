// Where the parts of the work memory begin that are handed on as a stretch of cells, as the table of specs/Layout.antt has it.
ghost use Rattle.std.specs.Prelude.{◌≡◌, ◌^◌, ◌<◌};
ghost use Rattle.memory.specs.Layout.{lives_from, firsts_from, stamps_from, near_from, far_from, around_from, folds_from};

// How large an input is: its V points and F faces, by which each part of the memory has its place.
#[derive(Clone, Copy)]
pub struct Extent {
    pub v: usize,
    pub f: usize,
}

// Whether each face is there.
pub fn lives_from(f: usize) -> usize
    requires { lives_from f < 2 ^ 64 }
    ensures { result ≡ lives_from f }
{
    3 * f
}

// The links from each point to its first corner.
pub fn firsts_from(f: usize) -> usize
    requires { firsts_from f < 2 ^ 64 }
    ensures { result ≡ firsts_from f }
{
    7 * f
}

// The stamps of the points.
pub fn stamps_from(extent: Extent) -> usize
    requires { stamps_from extent.v extent.f < 2 ^ 64 }
    ensures { result ≡ stamps_from extent.v extent.f }
{
    7 * extent.f + 3 * extent.v
}

// The faces around a point, or around keep.
pub fn near_from(extent: Extent) -> usize
    requires { near_from extent.v extent.f < 2 ^ 64 }
    ensures { result ≡ near_from extent.v extent.f }
{
    19 * extent.f + 4 * extent.v
}

// The faces around remove.
pub fn far_from(extent: Extent) -> usize
    requires { far_from extent.v extent.f < 2 ^ 64 }
    ensures { result ≡ far_from extent.v extent.f }
{
    20 * extent.f + 4 * extent.v
}

// The points around a point.
pub fn around_from(extent: Extent) -> usize
    requires { around_from extent.v extent.f < 2 ^ 64 }
    ensures { result ≡ around_from extent.v extent.f }
{
    21 * extent.f + 4 * extent.v
}

// The folds that are written down.
pub fn folds_from(extent: Extent) -> usize
    requires { folds_from extent.v extent.f < 2 ^ 64 }
    ensures { result ≡ folds_from extent.v extent.f }
{
    21 * extent.f + 5 * extent.v
}
