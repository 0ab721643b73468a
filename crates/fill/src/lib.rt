// Filling: the erasures of a cube that its lines force, by peeling, exactly.
#![tactic(auto)]

mod cells;
mod verify;

ghost use Rattle.std.specs.Prelude.{◌≡◌, length};
ghost use Rattle.answer.specs.Values.{value_of, passes, checked};
ghost use Rattle.field.specs.Field.{reduction};
ghost use Rattle.fill.specs.Fill.{fill_value, flags_checked, FillOutcome};

use answer::{Fault, Refusal};
use shape::Shape;

// Fills every missing cell that the lines force; says how many are left, or refuses: 13 exactly where no filling exists.
pub fn fill(cube: &mut [u8], flags: &mut [u8], sh: Shape) -> Result<usize, Refusal>
    ensures { FillOutcome reduction sh cube.old flags.old cube.new flags.new (fill_value result) }
{
    check(flags, cube.len(), sh)?;
    if shape::flags::none_missing(flags) {
        return verify::whole(cube, sh);
    }
    fill_missing(cube, flags, sh)
}

// The same where a cell is missing: cleared, peeled, verified, and settled or restored. Peeling answers true, since the lengths were checked.
fn fill_missing(cube: &mut [u8], flags: &mut [u8], sh: Shape) -> Result<usize, Refusal>
    requires { flags_checked sh (length cube.old) flags.old ≡ passes tt }
    ensures { FillOutcome reduction sh cube.old flags.old cube.new flags.new (fill_value result) }
{
    cells::clear_missing(cube, flags, sh);
    peel::peel(cube, flags, sh);
    if verify::verify(cube, flags, sh) {
        Ok(cells::settle(flags))
    } else {
        cells::restore(cube, flags, sh);
        Err(Refusal::Plain(Fault::Contradiction))
    }
}

// The checks 1 to 5. `mend` and `peel` compare these lengths too, each with what else it is lent and with another answer.
fn check(flags: &[u8], cube_length: usize, sh: Shape) -> Result<(), Refusal>
    ensures { value_of result ≡ checked (flags_checked sh cube_length flags.now) }
{
    let z = shape::measure(sh)?;
    if cube_length != z.bytes || flags.len() != z.cells {
        return Err(Refusal::Plain(Fault::SliceLength));
    }
    if !shape::flags::valid(flags) {
        return Err(Refusal::Plain(Fault::FlagValue));
    }
    Ok(())
}
