// Where the bytes of the data string stand in a cube: a row of data cells stands together, and the rows follow in cell order.
ghost use Rattle.std.specs.Prelude.{ℕ, ◌+◌, ◌-◌, ◌≤◌, ◌<◌};
ghost use Rattle.shape.specs.Shapes.{Valid, capacity};
ghost use Rattle.data.specs.Inner.Place.{Standing};

use shape::Shape;

// Bytes of the data string that stand together: where in the cube, how many up to the end of their row, and the row's second coordinate.
#[derive(Clone, Copy)]
pub(crate) struct Stretch {
    pub(crate) at: usize,
    pub(crate) len: usize,
    pub(crate) b: usize,
}

// Bytes of the data string that stand together, from byte q on: where in the cube, and how many.
#[derive(Clone, Copy)]
pub(crate) struct Piece {
    pub(crate) q: usize,
    pub(crate) at: usize,
    pub(crate) len: usize,
}

// The pieces of the data string from byte q up to byte `end`, row by row. It stands here, since what `pieces` imports names it, and a ghost field may
// not import what leads back to its struct.
#[derive(Clone, Copy)]
pub(crate) struct Pieces {
    pub(crate) sh: Shape,
    pub(crate) q: usize,
    pub(crate) end: usize,
    pub(crate) next: Stretch,
    ghost valid: { Valid sh },
    ghost inside: { end ≤ capacity sh },
    ghost begun: { q ≤ end },
}

// The stretch from byte q of the data string on.
pub(crate) fn stretch_at(sh: Shape, q: usize) -> Stretch
    requires { Valid sh × (q ≤ capacity sh) }
    ensures { Standing sh q result }
{
    let width = (sh.l1 - 2) * sh.w;
    let rows = sh.l2 - 2;
    let row = q / width;
    let y = q % width;
    let b = row % rows;
    let c = row / rows;
    Stretch {
        at: sh.l1 * (b + sh.l2 * c) * sh.w + y,
        len: width - y,
        b,
    }
}

// The next row: two parity cells further, and behind the last data row of a plane two parity rows further too.
pub(crate) fn next_row(sh: Shape, s: Stretch) -> Stretch
    requires { Valid sh × (s.at + s.len ≤ 268435456) × (s.b < sh.l2 - 2) }
    ensures { (q : ℕ) → Standing sh q s → Standing sh (q + s.len) result }
{
    let w = sh.w;
    let width = (sh.l1 - 2) * w;
    let at = s.at + s.len + 2 * w;
    let b = s.b + 1;
    if b < sh.l2 - 2 {
        return Stretch { at, len: width, b };
    }
    Stretch {
        at: at + 2 * (sh.l1 * w),
        len: width,
        b: 0,
    }
}
