// Mending: single-error correction of every line of a cube in three passes, by axis 1, 2, 3.
#![tactic(auto)]

mod passes;

ghost use Rattle.std.specs.Prelude.{◌≡◌};
ghost use Rattle.answer.specs.Values.{value_of, checked};
ghost use Rattle.field.specs.Field.{reduction};
ghost use Rattle.mend.specs.Mend.{axis_checked, whole_checked, mend_checked, AxisOutcome, MendOutcome};

use answer::{Fault, Refusal};
use shape::Shape;

// One pass: corrects every line of an axis in every layer.
pub fn mend_axis(cube: &mut [u8], sh: Shape, axis: usize) -> Result<(), Refusal>
    ensures { AxisOutcome reduction sh axis cube.old cube.new (value_of result) }
{
    check_axis(sh, axis, cube.len())?;
    passes::pass(cube, field::reduction(), sh, axis);
    Ok(())
}

// Copies a cube with no cell missing to `second` and corrects it there; refuses where the result is no code cube.
pub fn mend(cube: &[u8], flags: &[u8], second: &mut [u8], sh: Shape) -> Result<(), Refusal>
    ensures { MendOutcome reduction sh cube.now flags.now second.old second.new (value_of result) }
{
    check(flags, cube.len(), second.len(), sh)?;
    let reduction = field::reduction();
    passes::first_pass(cube, second, reduction, sh);
    passes::pass(second, reduction, sh, 2);
    passes::pass(second, reduction, sh, 3);
    if cube::is_code_cube(second, sh).unwrap_or(false) {
        Ok(())
    } else {
        second.fill(0);
        Err(Refusal::Plain(Fault::Uncorrected))
    }
}

// The checks of one pass; the axis by two comparisons, as `within` has them.
fn check_axis(sh: Shape, axis: usize, cube_length: usize) -> Result<(), Refusal>
    ensures { value_of result ≡ checked (axis_checked sh axis cube_length) }
{
    if axis < 1 || 3 < axis {
        return Err(Refusal::Plain(Fault::Dimension));
    }
    data::cube_fits(sh, cube_length)?;
    Ok(())
}

// The checks of mending: shape, lengths, then every flag. `fill` and `peel` compare lengths too, each with what else it is lent.
fn check(flags: &[u8], cube_length: usize, second_length: usize, sh: Shape) -> Result<(), Refusal>
    ensures { value_of result ≡ checked (mend_checked sh cube_length flags.now second_length) }
{
    let z = shape::measure(sh)?;
    if cube_length != z.bytes || flags.len() != z.cells || second_length != z.bytes {
        return Err(Refusal::Plain(Fault::SliceLength));
    }
    check_flags(flags)
}

fn check_flags(flags: &[u8]) -> Result<(), Refusal>
    ensures { value_of result ≡ checked (whole_checked flags.now) }
{
    if !shape::flags::valid(flags) {
        return Err(Refusal::Plain(Fault::FlagValue));
    }
    if !shape::flags::none_missing(flags) {
        return Err(Refusal::Plain(Fault::Erasure));
    }
    Ok(())
}
