// The data string of a cube: one reader and one writer, row by row of data cells.
#![tactic(auto)]

mod pieces;
mod place;
mod reader;
mod writer;

ghost use Rattle.std.specs.Prelude.{◌≡◌, ◌+◌, leb};
ghost use Rattle.answer.specs.Values.{value_of, checked};
ghost use Rattle.data.specs.Calls.{slices_checked, cube_sized, read_checked, ExtractOutcome, ReadOutcome, ZeroOutcome, WriteOutcome, SetOutcome};

use answer::{Fault, Refusal};
use shape::{Shape, Sizes};

// Takes the data string out of a cube.
pub fn extract(cube: &[u8], data: &mut [u8], sh: Shape) -> Result<(), Refusal>
    ensures { ExtractOutcome sh cube.now «data».old «data».new (value_of result) }
{
    slices_fit(sh, data.len(), cube.len())?;
    reader::copy_data(cube, data, sh, 0, 0, data.len());
    Ok(())
}

// Copies n bytes of the data string from byte `from` on to `out` from `to` on. Where they are not n bytes of the data string, or `out` has no
// room for them there, the refusal is 4 too.
pub fn read_data(
    cube: &[u8],
    out: &mut [u8],
    sh: Shape,
    from: usize,
    to: usize,
    n: usize,
) -> Result<(), Refusal>
    ensures { ReadOutcome sh cube.now from to n out.old out.new (value_of result) }
{
    spans_fit(sh, cube.len(), out.len(), from, to, n)?;
    reader::copy_data(cube, out, sh, from, to, n);
    Ok(())
}

// Whether the data string is 00h from byte `from` on.
pub fn is_data_zero(cube: &[u8], sh: Shape, from: usize) -> Result<bool, Refusal>
    ensures { ZeroOutcome sh cube.now from (value_of result) }
{
    let z = cube_fits(sh, cube.len())?;
    Ok(reader::zero_from(cube, sh, from, z.capacity))
}

// Copies n bytes of `src` from `from` on to the data string from byte `to` on, and keeps every other byte of the cube. Where the data string
// has no n bytes there, or `src` has none from `from` on, the refusal is 4 too. `read_data` the other way round: the slice that is written differs, and
// with it all that is promised.
pub fn write_data(
    src: &[u8],
    cube: &mut [u8],
    sh: Shape,
    from: usize,
    to: usize,
    n: usize,
) -> Result<(), Refusal>
    ensures { WriteOutcome sh src.now from to n cube.old cube.new (value_of result) }
{
    spans_fit(sh, cube.len(), src.len(), to, from, n)?;
    writer::put_data(src, cube, sh, from, to, n);
    Ok(())
}

// Makes every byte of the data string from byte `from` on `value`, and keeps every other byte of the cube.
pub fn set_data(cube: &mut [u8], sh: Shape, from: usize, value: u8) -> Result<(), Refusal>
    ensures { SetOutcome sh from value cube.old cube.new (value_of result) }
{
    let z = cube_fits(sh, cube.len())?;
    writer::set_from(cube, sh, from, z.capacity, value);
    Ok(())
}

// The checks 1 to 4 of a call that is lent a data string and a cube: both lengths in one test, of which `cube_fits` has one.
pub fn slices_fit(sh: Shape, capacity: usize, bytes: usize) -> Result<(), Refusal>
    ensures { value_of result ≡ checked (slices_checked sh capacity bytes) }
{
    let z = shape::measure(sh)?;
    if capacity == z.capacity && bytes == z.bytes {
        Ok(())
    } else {
        Err(Refusal::Plain(Fault::SliceLength))
    }
}

// The checks 1 to 4 of a call that is lent a cube alone, with the sizes of its shape.
pub fn cube_fits(sh: Shape, bytes: usize) -> Result<Sizes, Refusal>
    ensures { value_of result ≡ checked (cube_sized sh bytes) }
{
    let z = shape::measure(sh)?;
    if bytes == z.bytes {
        Ok(z)
    } else {
        Err(Refusal::Plain(Fault::SliceLength))
    }
}

// The checks of a call that copies n bytes between the data string, from `from` on, and a slice of `room` bytes, from `to` on.
fn spans_fit(
    sh: Shape,
    bytes: usize,
    room: usize,
    from: usize,
    to: usize,
    n: usize,
) -> Result<(), Refusal>
    ensures { value_of result ≡ checked (read_checked sh bytes room from to n) }
{
    let z = cube_fits(sh, bytes)?;
    if !inside(z.capacity, from, n) || !inside(room, to, n) {
        return Err(Refusal::Plain(Fault::SliceLength));
    }
    Ok(())
}

// Whether n bytes from `at` on lie inside `len` bytes. Not span's `part`, which takes a slice: here are lengths alone, and the checks of the outcomes
// name `leb`.
fn inside(len: usize, at: usize, n: usize) -> bool
    ensures { result ≡ leb (at + n) len }
{
    at.checked_add(n).is_some_and(|end| end <= len)
}
