// The passes over a cube. The run of a line is written out in each, as in `cube`, `peel` and `fill`, in its own width: a function of all four would be
// public, ask nothing of its caller, and test each product. The reduction byte is a parameter: `Pass` and its laws are over each that is primitive.
ghost use Rattle.shape.specs.Shapes.{IsAxis};
ghost use Rattle.data.specs.Data.{IsCube};
ghost use Rattle.mend.specs.Mend.{Pass};

use line::Run;
use shape::Shape;

// The pass by axis 1 from one cube into another: each row is corrected as soon as it is copied, while it is in the cache.
pub(crate) fn first_pass(cube: &[u8], second: &mut [u8], reduction: u8, sh: Shape)
    requires { IsCube sh cube.now × IsCube sh second.old }
    ensures { Pass reduction sh 1 cube.now second.new }
{
    let w = sh.w;
    let l1 = sh.l1;
    let row = l1 * w;
    // Not chunks_exact_mut: std does not say what a slice holds when its chunks have been written.
    for m in 0..sh.l2 * sh.l3 {
        let at = m * row;
        span::copy(cube, second, at, at, row);
        let run = Run {
            first: at,
            stride: w,
            len: l1,
            width: w,
        };
        line::correct(second, reduction, run);
    }
}

// Corrects every line of an axis. The lines m to m + stride - 1 lie side by side, so they are one run.
pub(crate) fn pass(cube: &mut [u8], reduction: u8, sh: Shape, axis: usize)
    requires { IsCube sh cube.old × IsAxis axis }
    ensures { Pass reduction sh axis cube.old cube.new }
{
    let w = sh.w;
    let mut m = 0;
    // No range of numbers: `axis_line` gives the line and its stride, and its refusal says where the axis ends.
    while let Ok(l) = shape::axis_line(sh, axis, m) {
        let stride = l.stride;
        let run = Run {
            first: l.first * w,
            stride: stride * w,
            len: l.len,
            width: stride * w,
        };
        line::correct(cube, reduction, run);
        m += stride;
    }
}
