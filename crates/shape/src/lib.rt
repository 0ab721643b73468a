// The shape of a cube: its limits and sizes, the lines of its three axes, the flags of its cells. No field stands below it.
#![tactic(auto)]

pub mod flags;

ghost use Rattle.std.specs.Prelude.{◌≡◌};
ghost use Rattle.answer.specs.Values.{value_of, checked};
ghost use Rattle.shape.specs.Shapes.{within, lengths_fit, shape_checked, axis_of, line_of};

use answer::{Fault, Refusal};

// Lengths of the three axes and the bytes of a cell (document 01: L1, L2, L3, W). Any numbers, as C gives them; that they are a cube's is the fact `Valid`
// and no type: a second struct of the same four numbers would double each one that holds a shape.
#[derive(Clone, Copy, PartialEq, Eq, Debug)]
pub struct Shape {
    pub l1: usize,
    pub l2: usize,
    pub l3: usize,
    pub w: usize,
}

// What a shape needs: its cells, the bytes of its cube, and the bytes of its data string.
#[derive(Clone, Copy, PartialEq, Eq, Debug)]
pub struct Sizes {
    pub cells: usize,
    pub bytes: usize,
    pub capacity: usize,
}

// An axis of a shape: how many lines it has, the stride from cell to cell of each, and their length.
#[derive(Clone, Copy, PartialEq, Eq, Debug)]
pub struct Axis {
    pub lines: usize,
    pub stride: usize,
    pub len: usize,
}

// A line of an axis: its first cell, the stride from cell to cell, and its length.
#[derive(Clone, Copy, PartialEq, Eq, Debug)]
pub struct Line {
    pub first: usize,
    pub stride: usize,
    pub len: usize,
}

// The sizes of a shape, or the first of the refusals 1, 2, 3.
pub fn measure(sh: Shape) -> Result<Sizes, Refusal>
    ensures { value_of result ≡ checked (shape_checked sh) }
{
    let Shape { l1, l2, l3, w } = sh;
    if !lengths_fit(sh) {
        return Err(Refusal::Plain(Fault::Dimension));
    }
    if !within(1, 1024, w) {
        return Err(Refusal::Plain(Fault::PacketSize));
    }
    let cells = l1 * l2 * l3;
    let bytes = w * cells;
    if 268435456 < bytes {
        return Err(Refusal::Plain(Fault::CubeSize));
    }
    let capacity = w * ((l1 - 2) * (l2 - 2) * (l3 - 2));
    Ok(Sizes {
        cells,
        bytes,
        capacity,
    })
}

fn lengths_fit(sh: Shape) -> bool
    ensures { result ≡ lengths_fit sh }
{
    within(3, 255, sh.l1) && within(3, 255, sh.l2) && within(3, 255, sh.l3)
}

// Whether low <= n <= high.
fn within(low: usize, high: usize, n: usize) -> bool
    ensures { result ≡ within low high n }
{
    (low..=high).contains(&n)
}

// An axis of a shape.
pub fn axis_of(sh: Shape, axis: usize) -> Result<Axis, Refusal>
    ensures { value_of result ≡ checked (axis_of sh axis) }
{
    if !within(1, 3, axis) {
        return Err(Refusal::Plain(Fault::Dimension));
    }
    measure(sh)?;
    let Shape { l1, l2, l3, .. } = sh;
    // An axis stays a number: the C interface gives it, and every other is refused. The design asks for this match: it picks the stride and the length,
    // and by them the first cell of each line.
    let (lines, stride, len) = match axis {
        1 => (l2 * l3, 1, l1),
        2 => (l1 * l3, l1, l2),
        _ => (l1 * l2, l1 * l2, l3),
    };
    Ok(Axis { lines, stride, len })
}

// Line m of an axis, lines counted by the cell number of their first cell.
pub fn axis_line(sh: Shape, axis: usize, m: usize) -> Result<Line, Refusal>
    ensures { value_of result ≡ checked (line_of sh axis m) }
{
    let Axis { lines, stride, len } = axis_of(sh, axis)?;
    if lines <= m {
        return Err(Refusal::Plain(Fault::Dimension));
    }
    let first = m / stride * (stride * len) + m % stride;
    Ok(Line { first, stride, len })
}
