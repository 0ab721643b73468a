// Receiving an input: what there is to print of it.
ghost use Rattle.std.specs.Prelude.{◌≡◌, ◌≤◌, length};
ghost use Rattle.answer.specs.Values.{passes};
ghost use Rattle.pack.specs.declared.Section.{Section};
ghost use Rattle.pack.specs.Reading.{air_of};
ghost use Rattle.receiver.specs.Receive.{received_value, received_counts};
ghost use Rattle.receive.specs.Outcomes.{ended, InputOutcome};
ghost use Rattle.receive.specs.Inner.Memory.{IsMemory};

use answer::Refusal;
use pack::{Header, Section};
use printing::LIMIT;
use receiver::Received;
use shape::Shape;

// What came of a pack that was not refused.
#[derive(Clone, Copy)]
pub(crate) struct Report {
    pub(crate) shape: Shape,
    pub(crate) received: Received,
}

// What there is to print: a refusal by its number, which is all that `ended` has of a refused pack.
#[derive(Clone, Copy)]
pub(crate) enum Outcome {
    TooBig,
    Refused(u64),
    Came(Report),
}

// Receives an input. A file of it begins `file`, and a cell that is left is MISSING in `flags`.
pub(crate) fn receive(air: &[u8], cube: &mut [u8], flags: &mut [u8], file: &mut [u8]) -> Outcome
    requires { IsMemory cube.old × IsMemory flags.old × IsMemory file.old }
    ensures { InputOutcome air.now flags.new file.new result }
{
    if air.len() > LIMIT {
        return Outcome::TooBig;
    }
    match pack::read_air(air) {
        Err(f) => Outcome::Refused(answer::number(f)),
        Ok((h, _)) => take(air, cube, flags, file, h),
    }
}

// Receives a pack that passes the checks down to 8, in memory of the exact lengths.
fn take(air: &[u8], cube: &mut [u8], flags: &mut [u8], file: &mut [u8], h: Header) -> Outcome
    requires { IsMemory cube.old × IsMemory flags.old × IsMemory file.old × (length air.now ≤ 65536) × ((s : Section) × (air_of air.now ≡ passes (h, s))) }
    ensures { InputOutcome air.now flags.new file.new result }
{
    let z = h.sizes;
    let bytes = z.bytes;
    if bytes > LIMIT {
        return Outcome::TooBig;
    }
    let cells = z.cells;
    let room = z.capacity - 4;
    let received = receiver::receive_pack(
        air,
        &mut cube[..bytes],
        &mut flags[..cells],
        &mut file[..room],
    );
    outcome_of(h.shape, received)
}

// The receiver's answer as an outcome: a refusal without its index.
fn outcome_of(sh: Shape, received: Result<Received, Refusal>) -> Outcome
    ensures { result ≡ ended sh (received_counts received) (received_value received) }
{
    match received {
        Err(f) => Outcome::Refused(answer::number(f)),
        Ok(received) => Outcome::Came(Report {
            shape: sh,
            received,
        }),
    }
}
