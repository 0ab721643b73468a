// The data string, written into a cube row by row; no byte outside the data cells changes.
ghost use Rattle.std.specs.Prelude.{◌≡◌, ◌+◌, ◌-◌, ◌≤◌, length};
ghost use Rattle.span.specs.Span.{Copied, SetTo};
ghost use Rattle.shape.specs.Shapes.{capacity};
ghost use Rattle.data.specs.Data.{IsCube, held_data, ParityKept};

use crate::place::Pieces;
use shape::Shape;

// Copies n bytes of `src` from `from` on to the data string from byte `to` on, row by row. The walk is that of `copy_data`; the slice that is written
// is the other.
pub(crate) fn put_data(src: &[u8], cube: &mut [u8], sh: Shape, from: usize, to: usize, n: usize)
    requires { IsCube sh cube.old × (to + n ≤ capacity sh) × (from + n ≤ length src.now) }
    ensures { Copied src.now from (held_data sh cube.old) to n (held_data sh cube.new) × ParityKept sh cube.old cube.new }
{
    for s in Pieces::over(sh, to, to + n) {
        span::copy(src, cube, from + (s.q - to), s.at, s.len);
    }
}

// Makes the data string, which ends at `end`, `value` from byte `from` on, row by row.
pub(crate) fn set_from(cube: &mut [u8], sh: Shape, from: usize, end: usize, value: u8)
    requires { IsCube sh cube.old × (end ≡ capacity sh) }
    ensures { SetTo (held_data sh cube.old) from (capacity sh - from) value (held_data sh cube.new) × ParityKept sh cube.old cube.new }
{
    for s in Pieces::over(sh, from, end) {
        span::set(cube, s.at, s.len, value);
    }
}
