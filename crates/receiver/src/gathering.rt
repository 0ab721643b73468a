// Gathering: every index is checked, the packets are placed, what the lines force is filled.
ghost use Rattle.std.specs.Prelude.{◌≡◌};
ghost use Rattle.answer.specs.Values.{Checked, passes};
ghost use Rattle.field.specs.Field.{reduction};
ghost use Rattle.pack.specs.declared.Header.{Header};
ghost use Rattle.pack.specs.declared.Section.{Section};
ghost use Rattle.receiver.specs.Gathering.{GatherOutcome};
ghost use Rattle.receiver.specs.Inner.Gathering.{gathering_value, gathering_counts, Fits};

use crate::{Counts, placing};
use answer::{Fault, PacketFault, Refusal};
use pack::Packets;

// Gathers the packets of a pack that was read: the cells left, none of a whole cube, and the counts of the pack. Every index is checked before
// any packet is placed.
pub(crate) fn gather(
    packets: &Packets,
    cube: &mut [u8],
    flags: &mut [u8],
) -> Result<(usize, Counts), Refusal>
    requires { Fits packets.now cube.old flags.old }
    ensures { let k = packets.now in (checks : Checked (Header × Section)) → checks ≡ passes (k.header, k.section)
        → GatherOutcome reduction k.bytes.now checks cube.old flags.old cube.new flags.new (gathering_value result) (gathering_counts result) }
{
    if let Some(i) = packets.first_outside() {
        // `as`: there is no From of usize for u64.
        return Err(Refusal::Packet(PacketFault::CellIndex, i as u64));
    }
    let counts = placing::place(packets, cube, flags);
    // Placed flags pass every check of filling: the only refusal that is left is 13. By let .. else, as the design asks, so that a file is opened only behind it.
    let Ok(left) = fill::fill(cube, flags, packets.header.shape) else {
        return Err(Refusal::Plain(Fault::Contradiction));
    };
    Ok((left, counts))
}
