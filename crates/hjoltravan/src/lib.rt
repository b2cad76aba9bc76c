// The C interface, thin: each function hands its arguments on. include/hjoltravan.h says what they are.
#![tactic(auto)]

ghost use Rattle.std.specs.Prelude.{◌≡◌};
ghost use Rattle.bits.specs.Root.{root_bits};
ghost use Rattle.bits.specs.Narrow.{narrow_bits};
ghost use Rattle.bits.specs.Order.{order_key};
ghost use Rattle.meaning.specs.Call.{lent, input_of};
ghost use Rattle.walking.specs.declared.Engine.TheVariants.{Plain, Heap};
ghost use Rattle.thinning.specs.Told.{options_of};
ghost use Rattle.serving.specs.Desks.{sources, desk};
ghost use Rattle.hjoltravan.specs.Orders.{CalledForOrders};
ghost use Rattle.hjoltravan.specs.Calls.{Called, CalledWithFolds, CalledToWrite};

use meaning::Options;
use orders::{Buffers, Order};
use serving::thin_order;
use walking::Engine;

// Thins a mesh by an engine, lists its folds, and tells the answer as five numbers and the pairs closed as three.
fn thin_and_tell(
    engine: Engine,
    points: &[f32],
    faces: &[u32],
    margin: &[u32],
    options: Options,
    out_points: &mut [f32],
    out_faces: &mut [u32],
    work_u32: &mut [u32],
    work_f32: &mut [f32],
    work_f64: &mut [f64],
    folds: &mut [u32],
    answer: &mut [u32; 5],
    closed: &mut [u64; 3],
)
    ensures { CalledWithFolds engine (input_of points.now faces.now margin.now options (lent out_points.old out_faces.old work_u32.old work_f32.old work_f64.old)) (lent out_points.old out_faces.old work_u32.old work_f32.old work_f64.old) (lent out_points.new out_faces.new work_u32.new work_f32.new work_f64.new) folds.old folds.new answer.new closed.new }
{
    let r = thinning::thin(
        engine, points, faces, margin, options, out_points, out_faces, work_u32, work_f32,
        work_f64, folds,
    );
    serving::tell(answer, closed, r);
}

// Thins a mesh by the heap walk.
#[unsafe(no_mangle)]
pub extern "C" fn hjoltravan_thin(
    points: &[f32],
    faces: &[u32],
    margin: &[u32],
    unit: u32,
    ratio: f32,
    preserve: bool,
    limited: bool,
    limit: f32,
    out_points: &mut [f32],
    out_faces: &mut [u32],
    work_u32: &mut [u32],
    work_f32: &mut [f32],
    work_f64: &mut [f64],
    answer: &mut [u32; 5],
    closed: &mut [u64; 3],
)
    ensures { Called Heap (input_of points.now faces.now margin.now (options_of unit ratio preserve limited limit) (lent out_points.old out_faces.old work_u32.old work_f32.old work_f64.old)) (lent out_points.old out_faces.old work_u32.old work_f32.old work_f64.old) (lent out_points.new out_faces.new work_u32.new work_f32.new work_f64.new) answer.new closed.new }
{
    let options = thinning::options_of(unit, ratio, preserve, limited, limit);
    let mut folds = [0u32; 1];
    thin_and_tell(
        Engine::Heap,
        points,
        faces,
        margin,
        options,
        out_points,
        out_faces,
        work_u32,
        work_f32,
        work_f64,
        &mut folds,
        answer,
        closed,
    );
}

// Thins a mesh by the plain walk.
#[unsafe(no_mangle)]
pub extern "C" fn hjoltravan_thin_plain(
    points: &[f32],
    faces: &[u32],
    margin: &[u32],
    unit: u32,
    ratio: f32,
    preserve: bool,
    limited: bool,
    limit: f32,
    out_points: &mut [f32],
    out_faces: &mut [u32],
    work_u32: &mut [u32],
    work_f32: &mut [f32],
    work_f64: &mut [f64],
    answer: &mut [u32; 5],
    closed: &mut [u64; 3],
)
    ensures { Called Plain (input_of points.now faces.now margin.now (options_of unit ratio preserve limited limit) (lent out_points.old out_faces.old work_u32.old work_f32.old work_f64.old)) (lent out_points.old out_faces.old work_u32.old work_f32.old work_f64.old) (lent out_points.new out_faces.new work_u32.new work_f32.new work_f64.new) answer.new closed.new }
{
    let options = thinning::options_of(unit, ratio, preserve, limited, limit);
    let mut folds = [0u32; 1];
    thin_and_tell(
        Engine::Plain,
        points,
        faces,
        margin,
        options,
        out_points,
        out_faces,
        work_u32,
        work_f32,
        work_f64,
        &mut folds,
        answer,
        closed,
    );
}

// Thins a mesh by the heap walk, and lists its folds.
#[unsafe(no_mangle)]
pub extern "C" fn hjoltravan_thin_folds(
    points: &[f32],
    faces: &[u32],
    margin: &[u32],
    unit: u32,
    ratio: f32,
    preserve: bool,
    limited: bool,
    limit: f32,
    out_points: &mut [f32],
    out_faces: &mut [u32],
    work_u32: &mut [u32],
    work_f32: &mut [f32],
    work_f64: &mut [f64],
    folds: &mut [u32],
    answer: &mut [u32; 5],
    closed: &mut [u64; 3],
)
    ensures { CalledWithFolds Heap (input_of points.now faces.now margin.now (options_of unit ratio preserve limited limit) (lent out_points.old out_faces.old work_u32.old work_f32.old work_f64.old)) (lent out_points.old out_faces.old work_u32.old work_f32.old work_f64.old) (lent out_points.new out_faces.new work_u32.new work_f32.new work_f64.new) folds.old folds.new answer.new closed.new }
{
    let options = thinning::options_of(unit, ratio, preserve, limited, limit);
    thin_and_tell(
        Engine::Heap,
        points,
        faces,
        margin,
        options,
        out_points,
        out_faces,
        work_u32,
        work_f32,
        work_f64,
        folds,
        answer,
        closed,
    );
}

// Thins many orders, each on its own parts of the buffers and as if it were alone.
#[unsafe(no_mangle)]
pub extern "C" fn hjoltravan_thin_orders(
    orders: &[Order],
    points: &[f32],
    faces: &[u32],
    margins: &[u32],
    out_points: &mut [f32],
    out_faces: &mut [u32],
    work_u32: &mut [u32],
    work_f32: &mut [f32],
    work_f64: &mut [f64],
    answers: &mut [u32],
    closed: &mut [u64],
) -> u32
    ensures { CalledForOrders orders.now (sources points.now faces.now margins.now) (desk (lent out_points.old out_faces.old work_u32.old work_f32.old work_f64.old) answers.old closed.old) (desk (lent out_points.new out_faces.new work_u32.new work_f32.new work_f64.new) answers.new closed.new) result }
{
    let cells = Buffers {
        points: points.len(),
        faces: faces.len(),
        margins: margins.len(),
        out_points: out_points.len(),
        out_faces: out_faces.len(),
        answers: answers.len(),
        closed: closed.len(),
    };
    if orders::refused(orders, cells) {
        return 41;
    }
    for (place, order) in orders.iter().enumerate() {
        thin_order(
            *order, place, points, faces, margins, out_points, out_faces, work_u32, work_f32,
            work_f64, answers, closed,
        );
    }
    0
}

// Writes a mesh and its unit as a file.
#[unsafe(no_mangle)]
pub extern "C" fn hjoltravan_write_scan(
    unit: u32,
    points: &[f32],
    faces: &[u32],
    file: &mut [u8],
    answer: &mut [u32; 3],
)
    ensures { CalledToWrite unit points.now faces.now file.old file.new answer.new }
{
    match scanwriter::write_scan(unit, points, faces, file) {
        Ok(size) => *answer = [0, 0, size as u32],
        Err(fault) => *answer = [fault.number(), fault.place(), 0],
    }
}

// The square root of an f32, on bit patterns.
#[unsafe(no_mangle)]
pub extern "C" fn hjoltravan_root(bits: u32) -> u32
    ensures { result ≡ root_bits bits }
{
    bits::root::root_bits(bits)
}

// The f32 nearest to an f64, on bit patterns.
#[unsafe(no_mangle)]
pub extern "C" fn hjoltravan_narrow(bits: u64) -> u32
    ensures { result ≡ narrow_bits bits }
{
    bits::narrow::narrow_bits(bits)
}

// The signed key of an f64's bit pattern, whose order is totalOrder.
#[unsafe(no_mangle)]
pub extern "C" fn hjoltravan_order_key(bits: u64) -> i64
    ensures { result ≡ order_key bits }
{
    bits::order::order_bits(bits)
}
