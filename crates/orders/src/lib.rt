// The orders of a call with many: where an order's parts lie, and which calls are refused as a whole.
#![tactic(auto)]

ghost use Rattle.std.specs.Prelude.{◌≡◌, ◌+◌, ◌<◌, ltb, length};
ghost use Rattle.orders.specs.Refused as Refused;

// The most orders of a call.
pub const MOST_ORDERS: usize = 64;

// Where some cells lie in a buffer: the first of them, and how many.
#[repr(C)]
#[derive(Clone, Copy)]
pub struct Part {
    pub from: usize,
    pub len: usize,
}

// An order: where its points, its faces and its margin lie in the shared inputs; how it is thinned; and its own parts of the outputs.
// Its place among the orders is where its answer goes.
#[repr(C)]
#[derive(Clone, Copy)]
pub struct Order {
    pub points: Part,
    pub faces: Part,
    pub margin: Part,
    pub unit: u32,
    pub ratio: f32,
    pub preserve: bool,
    pub limited: bool,
    pub limit: f32,
    pub out_points: Part,
    pub out_faces: Part,
}

// How many cells the buffers of a call have: the shared inputs, the outputs and the lists of answers.
#[derive(Clone, Copy)]
pub struct Buffers {
    pub points: usize,
    pub faces: usize,
    pub margins: usize,
    pub out_points: usize,
    pub out_faces: usize,
    pub answers: usize,
    pub closed: usize,
}

// Whether a cell lies before a part's end. The end is not worked out: it may be more than a number holds.
fn before_end(cell: usize, part: Part) -> bool
    ensures { result ≡ ltb cell (part.from + part.len) }
{
    cell < part.from || cell - part.from < part.len
}

// Whether a part lies outside a buffer of so many cells.
fn outside(part: Part, cells: usize) -> bool
    ensures { result ≡ Refused.outside part cells }
{
    before_end(cells, part)
}

// Whether one of an order's parts lies outside its buffer.
fn misplaced(order: Order, cells: Buffers) -> bool
    ensures { result ≡ Refused.misplaced cells order }
{
    outside(order.points, cells.points)
        || outside(order.faces, cells.faces)
        || outside(order.margin, cells.margins)
        || outside(order.out_points, cells.out_points)
        || outside(order.out_faces, cells.out_faces)
}

// Whether two parts share a cell.
fn share(a: Part, b: Part) -> bool
    ensures { result ≡ Refused.share a b }
{
    0 < a.len && 0 < b.len && before_end(a.from, b) && before_end(b.from, a)
}

// Whether two orders have an output cell in common.
fn clash(a: Order, b: Order) -> bool
    ensures { result ≡ Refused.clash a b }
{
    share(a.out_points, b.out_points) || share(a.out_faces, b.out_faces)
}

// Whether there are more orders than a call takes, or more than there is room for their answers.
fn too_many(orders: usize, cells: Buffers) -> bool
    ensures { result ≡ Refused.is_too_many orders cells }
{
    MOST_ORDERS < orders || cells.answers < 5 * orders || cells.closed < 3 * orders
}

// Whether the order at a place has an output cell in common with one before it.
fn clashes(orders: &[Order], place: usize) -> bool
    requires { place < length orders.now }
    ensures { result ≡ Refused.clashes orders.now place }
{
    let order = orders[place];
    orders[..place].iter().any(|before| clash(*before, order))
}

// Whether a call is refused as a whole. Where there are too many orders, none is looked at.
pub fn refused(orders: &[Order], cells: Buffers) -> bool
    ensures { result ≡ Refused.refused orders.now cells }
{
    if too_many(orders.len(), cells) {
        return true;
    }
    for (place, order) in orders.iter().enumerate() {
        if misplaced(*order, cells) || clashes(orders, place) {
            return true;
        }
    }
    false
}
