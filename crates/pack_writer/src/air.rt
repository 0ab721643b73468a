// Writing an air pack of any packets part by part, with count 5: its size, what stands before the packets, and how each packet begins.
ghost use Rattle.std.specs.Prelude.{◌≡◌, ◌++◌, ◌+◌, ◌≤◌, length};
ghost use Rattle.answer.specs.Values.{value_of, checked};
ghost use Rattle.shape.specs.Shapes.{Valid};
ghost use Rattle.cursor.specs.Steps.{word_bytes};
ghost use Rattle.pack.specs.Packs.{section_one};
ghost use Rattle.pack_writer.specs.Writing.{air_size_checked, StartOutcome, CoordinatesOutcome, Laid};

use crate::writing::{put_count, put_shape, size_of};
use answer::{Fault, Refusal};
use cursor::Cursor;
use shape::Shape;

// The bytes of an air pack with so many packets.
pub fn air_bytes(sh: Shape, packets: u32) -> Result<usize, Refusal>
    ensures { value_of result ≡ checked (air_size_checked sh packets) }
{
    let z = shape::measure(sh)?;
    if z.capacity < 4 {
        return Err(Refusal::Plain(Fault::Capacity));
    }
    // `as`, here and below: there is no From of u32 for usize.
    Ok(size_of(5, packets as usize, sh.w))
}

// Writes all that stands before the packets where `out` has the bytes of an air pack with so many, and answers the cursor behind it.
pub fn start_air(out: &mut [u8], sh: Shape, packets: u32) -> Result<Cursor, Refusal>
    ensures { StartOutcome sh packets out.old out.new (value_of result) }
{
    let n = air_bytes(sh, packets)?;
    if out.len() != n {
        return Err(Refusal::Plain(Fault::SliceLength));
    }
    Ok(put_head(out, sh, 5, 0, packets as usize))
}

// Section 1, section 2 without a file, and the count of section 3. The count of section 1 and the cells in use stay two numbers, as `section_one` has them:
// with 5 the second is not written.
pub(crate) fn put_head(
    out: &mut [u8],
    sh: Shape,
    count: usize,
    used: usize,
    packets: usize,
) -> Cursor
    requires { Valid sh × (17 ≤ length out.old) × (count ≡ 9 → 21 ≤ length out.old) }
    ensures { Laid out.old (record { at = 0 }) (section_one sh count used ++ (word_bytes 0 ++ word_bytes packets)) out.new result }
{
    let second = put_section(out, sh, count, used);
    let third = put_count(second, out, 0);
    put_count(third, out, packets)
}

// Section 1 behind its count: the shape, and with count 9 the data cells in use.
fn put_section(out: &mut [u8], sh: Shape, count: usize, used: usize) -> Cursor
    requires { Valid sh × (9 ≤ length out.old) × (count ≡ 9 → 13 ≤ length out.old) }
    ensures { Laid out.old (record { at = 0 }) (section_one sh count used) out.new result }
{
    let body = put_count(Cursor { at: 0 }, out, count);
    let behind = put_shape(out, body, sh);
    if count == 9 {
        put_count(behind, out, used)
    } else {
        behind
    }
}

// Writes a packet's a, b and c at the cursor, and answers the cursor behind them; where they don't fit, nothing changes. No Option: where they end is told
// always, and it is where they began when nothing was written.
pub fn write_coordinates(out: &mut [u8], at: Cursor, a: u8, b: u8, c: u8) -> Cursor
    ensures { CoordinatesOutcome out.old at a b c out.new result }
{
    let Ok((i, next)) = at.bytes(out, 3) else {
        return at;
    };
    out[i] = a;
    out[i + 1] = b;
    out[i + 2] = c;
    next
}
