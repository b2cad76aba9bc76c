// Single operations on bit patterns, over C, for tests alone: tests/single.c runs them beside the Rust.
#![tactic(auto)]

ghost use Rattle.std.specs.Prelude.{◌≡◌, ◌+◌, ◌≤◌, ◌<◌, length};
ghost use Rattle.probes.specs.Patterns.{at32, at64, point_from, quadric_from, row_from, vertex_from, bare, row_bits, plane_pattern, error_pattern, Inverted, length_pattern, place_pattern, cost_pattern};

use bits::patterns::{bits_of_f32, bits_of_f64, f32_of, f64_of};
use geometry::{Point, Quadric};
use placement::Kind;
use placement::inverse::Rows;
use placement::pair::Vertex;

// What is written where there is no inverse.
const NO_ROWS: Rows = Rows {
    first: [0.0, 0.0, 0.0],
    second: [0.0, 0.0, 0.0],
    third: [0.0, 0.0, 0.0],
};

// The f32 of the pattern at a place.
fn f32_at(bits: &[u32], at: usize) -> f32
    requires { at < length bits.now }
    ensures { result ≡ at32 bits.now at }
{
    f32_of(bits[at])
}

// The f64 of the pattern at a place.
fn f64_at(bits: &[u64], at: usize) -> f64
    requires { at < length bits.now }
    ensures { result ≡ at64 bits.now at }
{
    f64_of(bits[at])
}

// The point of three patterns from a place on.
fn point_from(bits: &[u32], at: usize) -> Point
    requires { at + 3 ≤ length bits.now }
    ensures { result ≡ point_from bits.now at }
{
    Point {
        x: f32_at(bits, at),
        y: f32_at(bits, at + 1),
        z: f32_at(bits, at + 2),
    }
}

// The row of three patterns from a place on.
fn row_from(bits: &[u64], at: usize) -> [f64; 3]
    requires { at + 3 ≤ length bits.now }
    ensures { result ≡ row_from bits.now at }
{
    [f64_at(bits, at), f64_at(bits, at + 1), f64_at(bits, at + 2)]
}

// The quadric of ten patterns from a place on.
fn quadric_from(bits: &[u64], at: usize) -> Quadric
    requires { at + 10 ≤ length bits.now }
    ensures { result ≡ quadric_from bits.now at }
{
    Quadric {
        m11: f64_at(bits, at),
        m12: f64_at(bits, at + 1),
        m13: f64_at(bits, at + 2),
        m14: f64_at(bits, at + 3),
        m22: f64_at(bits, at + 4),
        m23: f64_at(bits, at + 5),
        m24: f64_at(bits, at + 6),
        m33: f64_at(bits, at + 7),
        m34: f64_at(bits, at + 8),
        m44: f64_at(bits, at + 9),
    }
}

// A free point with its quadric, each from a place on.
fn vertex_from(points: &[u32], at: usize, quadrics: &[u64], from: usize) -> Vertex
    requires fact_1 { at + 3 ≤ length points.now }
    requires fact_2 { from + 10 ≤ length quadrics.now }
    ensures { result ≡ vertex_from points.now at quadrics.now from }
{
    Vertex {
        point: point_from(points, at),
        quadric: quadric_from(quadrics, from),
        kind: Kind::Free,
    }
}

// A free point without a quadric, from a place on.
fn bare_from(points: &[u32], at: usize) -> Vertex
    requires { at + 3 ≤ length points.now }
    ensures { result ≡ bare (point_from points.now at) }
{
    Vertex {
        point: point_from(points, at),
        quadric: Quadric::start(),
        kind: Kind::Free,
    }
}

// Three patterns of a row.
fn row_bits(row: [f64; 3]) -> [u64; 3]
    ensures { result ≡ row_bits row }
{
    [
        bits_of_f64(row[0]),
        bits_of_f64(row[1]),
        bits_of_f64(row[2]),
    ]
}

// The plane of three points.
#[unsafe(no_mangle)]
pub extern "C" fn single_plane(points: &[u32; 9], out: &mut [u64; 4])
    ensures { out.new ≡ plane_pattern points.now }
{
    let plane = geometry::plane_of(
        point_from(points, 0),
        point_from(points, 3),
        point_from(points, 6),
    );
    *out = [
        bits_of_f64(plane.a),
        bits_of_f64(plane.b),
        bits_of_f64(plane.c),
        bits_of_f64(plane.d),
    ];
}

// The error of a quadric at a point.
#[unsafe(no_mangle)]
pub extern "C" fn single_error(quadric: &[u64; 10], point: &[u32; 3]) -> u64
    ensures { result ≡ error_pattern quadric.now point.now }
{
    bits_of_f64(placement::error::error_at(quadric_from(quadric, 0), point_from(point, 0)))
}

// The inverse of three rows, and whether there is one.
#[unsafe(no_mangle)]
pub extern "C" fn single_inverse(
    rows: &[u64; 9],
    first: &mut [u64; 3],
    second: &mut [u64; 3],
    third: &mut [u64; 3],
) -> bool
    ensures { Inverted rows.now result first.new second.new third.new }
{
    let found = placement::inverse::inverse(
        row_from(rows, 0),
        row_from(rows, 3),
        row_from(rows, 6),
    );
    let shown = found.unwrap_or(NO_ROWS);
    *first = row_bits(shown.first);
    *second = row_bits(shown.second);
    *third = row_bits(shown.third);
    found.is_some()
}

// The length of the pair of two points.
#[unsafe(no_mangle)]
pub extern "C" fn single_length(points: &[u32; 6]) -> u32
    ensures { result ≡ length_pattern points.now }
{
    bits_of_f32(placement::pair::pair_length(bare_from(points, 0), bare_from(points, 3)))
}

// The place of the pair of two points with their quadrics. The bound is any pattern.
#[unsafe(no_mangle)]
pub extern "C" fn single_place(
    bound: u32,
    points: &[u32; 6],
    quadrics: &[u64; 20],
    out: &mut [u32; 3],
)
    ensures { out.new ≡ place_pattern bound points.now quadrics.now }
{
    let keep = vertex_from(points, 0, quadrics, 0);
    let remove = vertex_from(points, 3, quadrics, 10);
    let place = placement::pair::pair_place(keep, remove, f32_of(bound));
    *out = [
        bits_of_f32(place.x),
        bits_of_f32(place.y),
        bits_of_f32(place.z),
    ];
}

// The error there.
#[unsafe(no_mangle)]
pub extern "C" fn single_cost(bound: u32, points: &[u32; 6], quadrics: &[u64; 20]) -> u64
    ensures { result ≡ cost_pattern bound points.now quadrics.now }
{
    let keep = vertex_from(points, 0, quadrics, 0);
    let remove = vertex_from(points, 3, quadrics, 10);
    bits_of_f64(placement::pair::pair_cost(keep, remove, f32_of(bound)))
}
