// Whether a cube is a code cube: every line of every axis, in runs of neighbouring lines, axes 1 and 2 plane by plane, then axis 3.
ghost use Rattle.std.specs.Prelude.{◌<◌};
ghost use Rattle.shape.specs.Shapes.{IsAxis, lines_of};
ghost use Rattle.data.specs.Data.{IsCube};
ghost use Rattle.cube.specs.Cube.{CodeCube};
ghost use Rattle.cube.specs.Inner.Checker.{Blocks, LinesRight, PlaneRight};
ghost use Rattle.span.specs.Decision.{Decides};

use line::Run;
use shape::Shape;

// Whether the lines of all three axes are codewords in every layer.
pub(crate) fn all_right(cube: &[u8], reduction: u8, sh: Shape) -> bool
    requires { IsCube sh cube.now }
    ensures { Decides (CodeCube reduction sh cube.now) result }
{
    planes_right(cube, reduction, sh) && lines_right(cube, reduction, sh, 3, 0, sh.l1 * sh.l2)
}

// Axes 1 and 2, plane by plane while a plane is in the cache.
fn planes_right(cube: &[u8], reduction: u8, sh: Shape) -> bool
    requires { IsCube sh cube.now }
    ensures { Decides (LinesRight reduction sh 1 0 (lines_of sh 1) cube.now × LinesRight reduction sh 2 0 (lines_of sh 2) cube.now) result }
{
    (0..sh.l3).all(|c| plane_right(cube, reduction, sh, c))
}

// The rows and columns of plane c. Axis 2 comes first: its runs are long, and fetch the plane at full speed.
fn plane_right(cube: &[u8], reduction: u8, sh: Shape, c: usize) -> bool
    requires { IsCube sh cube.now × (c < sh.l3) }
    ensures { Decides (PlaneRight reduction sh c cube.now) result }
{
    let Shape { l1, l2, .. } = sh;
    let row = c * l2;
    let column = c * l1;
    lines_right(cube, reduction, sh, 2, column, column + l1)
        && lines_right(cube, reduction, sh, 1, row, row + l2)
}

// The lines m to m + stride - 1 of an axis lie side by side, so they are one run; the runs stand one behind the other. A run is written out here, as in
// `peel`, `fill` and `mend`, each in its own width: a function of all four would be public, ask nothing of its caller, and test each product.
fn lines_right(cube: &[u8], reduction: u8, sh: Shape, axis: usize, from: usize, to: usize) -> bool
    requires { IsCube sh cube.now × IsAxis axis × Blocks sh axis from to }
    ensures { Decides (LinesRight reduction sh axis from to cube.now) result }
{
    // `from` is a line of the axis, so that this is never refused.
    let Ok(l) = shape::axis_line(sh, axis, from) else {
        return true;
    };
    let block = l.stride * sh.w;
    let run = Run {
        first: l.first * sh.w,
        stride: block,
        len: l.len,
        width: block,
    };
    rows::codewords(cube, reduction, run, block * l.len, (to - from) / l.stride)
}
