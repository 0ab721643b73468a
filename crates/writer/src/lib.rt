// The writer: a job pack with a file becomes an air pack of every cell of the file's code cube that is sent.
#![tactic(auto)]

ghost use Rattle.std.specs.Prelude.{◌≡◌};
ghost use Rattle.answer.specs.Values.{value_of};
ghost use Rattle.field.specs.Field.{reduction};
ghost use Rattle.data.specs.Data.{IsCube, held_data};
ghost use Rattle.pack.specs.Packs.{data_string};
ghost use Rattle.pack.specs.Reading.{file_of};
ghost use Rattle.pack.proofs.Sound.{JobSound};
ghost use Rattle.writer.specs.Write.{WriteOutcome};

use answer::Refusal;
use pack::{Header, Section};

// Writes the code cube of the pack's file to `cube` and the pack of its cells that are sent to `output`. All checks come before the first byte.
pub fn write_pack(job: &[u8], cube: &mut [u8], output: &mut [u8]) -> Result<(), Refusal>
    ensures { WriteOutcome reduction job.now cube.old output.old cube.new output.new (value_of result) }
{
    let (h, file) = pack::read_job(job)?;
    pack_writer::slices_fit(h, cube.len(), output.len())?;
    // The checks have passed, so that neither call refuses.
    lay_file(job, cube, h, file);
    let _ = cube::complete(cube, h.shape);
    let _ = pack_writer::write_air(cube, output, h);
    Ok(())
}

// Puts the data string into the cube's data cells: the file's length, the file, and 00h behind it.
fn lay_file(job: &[u8], cube: &mut [u8], h: Header, file: Section)
    requires { JobSound job.now h file × IsCube h.shape cube.old }
    ensures { held_data h.shape cube.new ≡ data_string h.shape (file_of job.now file) }
{
    let sh = h.shape;
    let n = file.count;
    let bytes = cursor::count_bytes(n);
    // The file was judged against the capacity, so that no call refuses.
    let _ = data::write_data(&bytes, cube, sh, 0, 0, 4);
    let _ = data::write_data(job, cube, sh, file.at, 4, n);
    let _ = data::set_data(cube, sh, 4 + n, 0);
}
