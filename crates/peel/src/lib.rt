// Peeling: fills the missing cells that the lines of a cube force, line after line, until no line misses one or two.
#![tactic(auto)]

mod on_line;
mod state;
mod sweep;
mod wake;

ghost use Rattle.field.specs.Field.{reduction};
ghost use Rattle.span.specs.Decision.{Decides};
ghost use Rattle.peel.specs.Peel.{Sized, PeelOutcome};

use shape::Shape;
use state::Peeling;

// Peels a cube whose flags are 1 at the missing cells: a cell that is filled gets flag 3. Where cube and flags have not the lengths of a valid
// shape, changes nothing and says so. It says it by a bool: there is this one way to fail, it has no number, and who checked before passes over it.
pub fn peel(cube: &mut [u8], flags: &mut [u8], sh: Shape) -> bool
    ensures { PeelOutcome reduction sh cube.old flags.old cube.new flags.new result }
{
    if !fits(cube, flags, sh) {
        return false;
    }
    let mut peeling = Peeling {
        cube,
        flags,
        marks: [0; 24576],
        shape: sh,
    };
    peeling.sweeps();
    true
}

// Whether cube and flags have the lengths of a valid shape. `fill` and `mend` refuse others; here it is a test.
fn fits(cube: &[u8], flags: &[u8], sh: Shape) -> bool
    ensures { Decides (Sized sh cube.now flags.now) result }
{
    shape::measure(sh).is_ok_and(|z| cube.len() == z.bytes && flags.len() == z.cells)
}
