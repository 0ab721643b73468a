// The file in a whole cube: its length, the zeros behind it, and its bytes.
ghost use Rattle.std.specs.Prelude.{◌≡◌, ℕ, ◌-◌, ◌≤◌, ◌<◌, length};
ghost use Rattle.answer.specs.Values.{value_of};
ghost use Rattle.span.specs.Decision.{Decides};
ghost use Rattle.shape.specs.Shapes.{capacity};
ghost use Rattle.data.specs.Data.{IsCube, data_of, held_data};
ghost use Rattle.cursor.specs.Steps.{word};
ghost use Rattle.receiver.specs.Opening.{OpenOutcome};

use answer::{Fault, Refusal};
use shape::Shape;

// Copies the file to the buffer where the data string holds one, and answers its length; else changes nothing.
pub(crate) fn open(cube: &[u8], buffer: &mut [u8], sh: Shape) -> Result<usize, Refusal>
    requires { IsCube sh cube.now × (4 ≤ capacity sh) × (length buffer.old ≡ capacity sh - 4) }
    ensures { OpenOutcome sh cube.now buffer.old buffer.new (value_of result) }
{
    let n = held_length(cube, sh);
    if buffer.len() < n || !zero_behind(cube, sh, 4 + n) {
        return Err(Refusal::Plain(Fault::FileLength));
    }
    // The n bytes are in the data string and in the buffer, so that this call does not refuse.
    let _ = data::read_data(cube, buffer, sh, 4, 0, n);
    Ok(n)
}

// The length that stands in the first four bytes of the data string.
fn held_length(cube: &[u8], sh: Shape) -> usize
    requires { IsCube sh cube.now × (4 ≤ capacity sh) }
    ensures { result ≡ word (held_data sh cube.now) 0 }
{
    let mut bytes = [0u8; 4];
    // A data string has at least four bytes here, so that this call does not refuse.
    let _ = data::read_data(cube, &mut bytes, sh, 0, 0, 4);
    // `as`: there is no From of u32 for usize.
    u32::from_le_bytes(bytes) as usize
}

// Whether every byte of the data string from `from` on is 00h.
fn zero_behind(cube: &[u8], sh: Shape, from: usize) -> bool
    requires { IsCube sh cube.now }
    ensures { Decides ((q : ℕ) → from ≤ q → q < capacity sh → data_of sh cube.now q ≡ 0) result }
{
    data::is_data_zero(cube, sh, from).unwrap_or(false)
}
