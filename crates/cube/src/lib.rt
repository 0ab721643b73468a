// The packet cube, a product code of three axes with two parity packets on every line: its encoder, of a data string or in place, and its check.
#![tactic(auto)]

mod checker;
mod encoder;

ghost use Rattle.answer.specs.Values.{value_of};
ghost use Rattle.field.specs.Field.{reduction};
ghost use Rattle.cube.specs.Calls.{EncodeOutcome, CompleteOutcome, CheckOutcome};

use answer::Refusal;
use data::{cube_fits, slices_fit};
use shape::Shape;

// Encodes a data string: leaves in `cube` the one code cube that has it.
pub fn encode(data: &[u8], cube: &mut [u8], sh: Shape) -> Result<(), Refusal>
    ensures { EncodeOutcome reduction sh «data».now cube.old cube.new (value_of result) }
{
    slices_fit(sh, data.len(), cube.len())?;
    encoder::encode_cube(data, cube, field::reduction(), sh);
    Ok(())
}

// Encodes in place: leaves the data cells and writes every parity cell, whatever stands there.
pub fn complete(cube: &mut [u8], sh: Shape) -> Result<(), Refusal>
    ensures { CompleteOutcome reduction sh cube.old cube.new (value_of result) }
{
    cube_fits(sh, cube.len())?;
    encoder::complete_cube(cube, field::reduction(), sh);
    Ok(())
}

// Whether the bytes are a code cube of the shape.
pub fn is_code_cube(cube: &[u8], sh: Shape) -> Result<bool, Refusal>
    ensures { CheckOutcome reduction sh cube.now (value_of result) }
{
    cube_fits(sh, cube.len())?;
    Ok(checker::all_right(cube, field::reduction(), sh))
}
