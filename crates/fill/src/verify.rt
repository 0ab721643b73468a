// The last check: every line without a missing cell must be a codeword in every layer. With no cell missing it is the only one.
ghost use Rattle.shape.specs.Shapes.{IsAxis};
ghost use Rattle.data.specs.Data.{IsCube};
ghost use Rattle.cube.specs.Cube.{CodeCube};
ghost use Rattle.field.specs.Field.{reduction};
ghost use Rattle.span.specs.Decision.{Decides};
ghost use Rattle.fill.specs.Fill.{fill_value};
ghost use Rattle.peel.specs.Peel.{Sized};
ghost use Rattle.fill.specs.Inner.Verify.{LineRight, AxisRight, AllRight, WholeChecked};

use answer::{Fault, Refusal};
use line::Run;
use shape::Shape;

// With no cell missing a filling is a check of the cube.
pub(crate) fn whole(cube: &[u8], sh: Shape) -> Result<usize, Refusal>
    requires { IsCube sh cube.now }
    ensures { WholeChecked reduction sh cube.now (fill_value result) }
{
    if is_code(cube, sh) {
        Ok(0)
    } else {
        Err(Refusal::Plain(Fault::Contradiction))
    }
}

// Whether a cube of this shape is a code cube: such a cube is not refused.
fn is_code(cube: &[u8], sh: Shape) -> bool
    requires { IsCube sh cube.now }
    ensures { Decides (CodeCube reduction sh cube.now) result }
{
    cube::is_code_cube(cube, sh).unwrap_or(false)
}

// Where no cell is missing every line counts, and the check of a whole cube is faster: it takes the lines in wide runs.
pub(crate) fn verify(cube: &[u8], flags: &[u8], sh: Shape) -> bool
    requires { Sized sh cube.now flags.now }
    ensures { Decides (AllRight reduction sh cube.now flags.now) result }
{
    if shape::flags::none_missing(flags) {
        return is_code(cube, sh);
    }
    let lent = Lent {
        cube,
        flags,
        shape: sh,
    };
    lent.verify_lines()
}

// A cube and its flags, lent to be checked line by line.
#[derive(Clone, Copy)]
struct Lent<'a> {
    cube: &'a [u8],
    flags: &'a [u8],
    shape: Shape,
    ghost sized: { Sized shape cube.now flags.now },
}

impl<'a> Lent<'a> {
    fn verify_lines(&self) -> bool
        ensures { Decides (AllRight reduction self.now.shape self.now.cube.now self.now.flags.now) result }
    {
        self.verify_axis(1) && self.verify_axis(2) && self.verify_axis(3)
    }

    fn verify_axis(&self, axis: usize) -> bool
        requires { IsAxis axis }
        ensures { Decides (AxisRight reduction self.now.shape self.now.cube.now self.now.flags.now axis) result }
    {
        let lines = shape::axis_of(self.shape, axis).map_or(0, |a| a.lines);
        (0..lines).all(|m| self.verify_line(axis, m))
    }

    // Line m of an axis, if there is one. Its run is written out here, as in `cube`, `peel` and `mend`, each in its own width: a function of all four
    // would be public, ask nothing of its caller, and test each product.
    fn verify_line(&self, axis: usize, m: usize) -> bool
        ensures { Decides (LineRight reduction self.now.shape self.now.cube.now self.now.flags.now axis m) result }
    {
        let Ok(line) = shape::axis_line(self.shape, axis, m) else {
            return true;
        };
        let e = erasures::scan_line(self.flags, line);
        if e.count != 0 {
            return true;
        }
        let w = self.shape.w;
        let run = Run {
            first: line.first * w,
            stride: line.stride * w,
            len: line.len,
            width: w,
        };
        line::codewords(self.cube, field::reduction(), run)
    }
}
