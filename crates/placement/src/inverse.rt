// The inverse of a 3x3 block, three rows in and three rows out, each entry by its formula.
ghost use Rattle.std.specs.Prelude.{◌≡◌};
ghost use Rattle.placement.specs.Inverses.{block_of, determinant as determinant_of, first_row, second_row, third_row, inverse as inverse_of};

// The block, each entry by its row and its column.
#[derive(Clone, Copy)]
pub struct Block {
    pub m11: f64,
    pub m12: f64,
    pub m13: f64,
    pub m21: f64,
    pub m22: f64,
    pub m23: f64,
    pub m31: f64,
    pub m32: f64,
    pub m33: f64,
}

// An inverse by its rows.
#[derive(Clone, Copy)]
pub struct Rows {
    pub first: [f64; 3],
    pub second: [f64; 3],
    pub third: [f64; 3],
}

// The block of three rows.
fn block_of(r1: [f64; 3], r2: [f64; 3], r3: [f64; 3]) -> Block
    ensures { result ≡ block_of r1 r2 r3 }
{
    Block {
        m11: r1[0],
        m12: r1[1],
        m13: r1[2],
        m21: r2[0],
        m22: r2[1],
        m23: r2[2],
        m31: r3[0],
        m32: r3[1],
        m33: r3[2],
    }
}

// The determinant.
fn determinant(m: Block) -> f64
    ensures { result ≡ determinant_of m }
{
    let a = m.m22 * m.m33 - m.m32 * m.m23;
    let b = m.m21 * m.m33 - m.m31 * m.m23;
    let c = m.m21 * m.m32 - m.m31 * m.m22;
    (m.m11 * a - m.m12 * b) + m.m13 * c
}

// The first row of the inverse.
fn first_row(m: Block, det: f64) -> [f64; 3]
    ensures { result ≡ first_row m det }
{
    [
        (m.m22 * m.m33 - m.m32 * m.m23) / det,
        (m.m13 * m.m32 - m.m33 * m.m12) / det,
        (m.m12 * m.m23 - m.m22 * m.m13) / det,
    ]
}

// The second row of the inverse.
fn second_row(m: Block, det: f64) -> [f64; 3]
    ensures { result ≡ second_row m det }
{
    [
        -(m.m21 * m.m33 - m.m31 * m.m23) / det,
        (m.m11 * m.m33 - m.m31 * m.m13) / det,
        (m.m13 * m.m21 - m.m23 * m.m11) / det,
    ]
}

// The third row of the inverse.
fn third_row(m: Block, det: f64) -> [f64; 3]
    ensures { result ≡ third_row m det }
{
    [
        (m.m21 * m.m32 - m.m31 * m.m22) / det,
        (m.m12 * m.m31 - m.m32 * m.m11) / det,
        (m.m11 * m.m22 - m.m21 * m.m12) / det,
    ]
}

// The inverse of a block, where its determinant isn't zero.
pub fn inverse(r1: [f64; 3], r2: [f64; 3], r3: [f64; 3]) -> Option<Rows>
    ensures { result ≡ inverse_of (block_of r1 r2 r3) }
{
    let m = block_of(r1, r2, r3);
    let det = determinant(m);
    if det == 0.0 {
        return None;
    }
    Some(Rows {
        first: first_row(m, det),
        second: second_row(m, det),
        third: third_row(m, det),
    })
}
