// The data string, read out of a cube row by row.
ghost use Rattle.std.specs.Prelude.{◌≡◌, ℕ, ◌+◌, ◌≤◌, ◌<◌, length};
ghost use Rattle.span.specs.Span.{Copied};
ghost use Rattle.shape.specs.Shapes.{capacity};
ghost use Rattle.data.specs.Data.{IsCube, data_of, held_data};
ghost use Rattle.span.specs.Decision.{Decides};

use crate::place::Pieces;
use shape::Shape;

// Copies n bytes of the data string from `from` on to `out` from `to` on, row by row.
pub(crate) fn copy_data(cube: &[u8], out: &mut [u8], sh: Shape, from: usize, to: usize, n: usize)
    requires { IsCube sh cube.now × (from + n ≤ capacity sh) × (to + n ≤ length out.old) }
    ensures { Copied (held_data sh cube.now) from out.old to n out.new }
{
    for s in Pieces::over(sh, from, from + n) {
        span::copy(cube, out, s.at, to + (s.q - from), s.len);
    }
}

// Whether the data string, which ends at `end`, is 00h from `from` on, row by row.
pub(crate) fn zero_from(cube: &[u8], sh: Shape, from: usize, end: usize) -> bool
    requires { IsCube sh cube.now × (end ≡ capacity sh) }
    ensures { Decides ((q : ℕ) → from ≤ q → q < capacity sh → data_of sh cube.now q ≡ 0) result }
{
    Pieces::over(sh, from, end).all(|s| span::zeros(cube, s.at, s.len))
}
