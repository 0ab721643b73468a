// The receiver: gathers the packets of an air pack into a cube, fills what the lines force, and opens the file only where nothing is left.
#![tactic(auto)]

mod file;
mod gathering;
mod placing;

ghost use Rattle.std.specs.Prelude.{◌≡◌, ◌-◌, ◌≤◌, eqb};
ghost use Rattle.field.specs.Field.{reduction};
ghost use Rattle.shape.specs.Shapes.{both};
ghost use Rattle.receiver.specs.Receive.{received_value, received_counts, lent, ReceiveOutcome};

use answer::{Fault, Refusal};
use pack::Packets;
use shape::Sizes;

// How a pack ends that is not refused: in a file of so many bytes, or with so many cells left.
#[derive(Clone, Copy)]
pub enum Ending {
    File(usize),
    Left(usize),
}

// The packets of a pack; its repeats, the packets whose cell had come before; its conflicts, the cells whose copies are not all equal.
#[derive(Clone, Copy)]
pub struct Counts {
    pub packets: usize,
    pub repeats: usize,
    pub conflicts: usize,
}

// The answer: how a pack ended, with its counts.
#[derive(Clone, Copy)]
pub struct Received {
    pub ending: Ending,
    pub counts: Counts,
}

// Receives a pack: a file, a count of cells left, or a refusal. The file is opened only where gathering leaves a whole cube.
pub fn receive_pack(
    air: &[u8],
    cube: &mut [u8],
    flags: &mut [u8],
    buffer: &mut [u8],
) -> Result<Received, Refusal>
    ensures { ReceiveOutcome reduction air.now (lent cube.old flags.old buffer.old) (lent cube.new flags.new buffer.new) (received_value result) (received_counts result) }
{
    let (header, section) = pack::read_air(air)?;
    let z = header.sizes;
    if !slices_fit(z, cube.len(), flags.len(), buffer.len()) {
        return Err(Refusal::Plain(Fault::SliceLength));
    }
    let packets = Packets {
        bytes: air,
        header,
        section,
    };
    let (left, counts) = gathering::gather(&packets, cube, flags)?;
    if left != 0 {
        return Ok(Received {
            ending: Ending::Left(left),
            counts,
        });
    }
    let length = file::open(cube, buffer, header.shape)?;
    Ok(Received {
        ending: Ending::File(length),
        counts,
    })
}

// Whether the three slices have the lengths that the sizes ask for. A test and no Result: one refusal is made of it, where it is asked.
fn slices_fit(z: Sizes, bytes: usize, flags: usize, room: usize) -> bool
    requires { 4 ≤ z.capacity }
    ensures { result ≡ both (eqb bytes z.bytes) (both (eqb flags z.cells) (eqb room (z.capacity - 4))) }
{
    bytes == z.bytes && (flags == z.cells && room == z.capacity - 4)
}
