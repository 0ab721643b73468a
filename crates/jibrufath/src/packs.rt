// The calls on packs: writing one, and receiving one.
ghost use Rattle.std.specs.Prelude.{◌≡◌, ◌<◌, ◌^◌};
ghost use Rattle.answer.specs.Values.{gives};
ghost use Rattle.field.specs.Field.{reduction};
ghost use Rattle.writer.specs.Write.{WriteOutcome};
ghost use Rattle.receiver.specs.Receive.{reception_of, lent, ReceiveOutcome};
ghost use Rattle.jibrufath.specs.Exports.{Exported, uncounted, beside, packed};
ghost use Rattle.jibrufath.specs.Packs.{reception_left, file_bytes, places, ReceiveExport};

use receiver::{Ending, Received};

// Writes the code cube of a job pack's file, and the pack of its packets.
#[unsafe(no_mangle)]
pub extern "C" fn jibrufath_write_pack(job: &[u8], cube: &mut [u8], output: &mut [u8]) -> u64
    ensures { Exported uncounted (WriteOutcome reduction job.now cube.old output.old cube.new output.new) result }
{
    crate::answer_word(writer::write_pack(job, cube, output))
}

// Receives an air pack. The counts are the file's length, the packets and the repeats, and in place 13 the cells whose copies are not all
// equal; the other 12 are kept, and always 0, as are all with a refusal.
#[unsafe(no_mangle)]
pub extern "C" fn jibrufath_receive_pack(
    air: &[u8],
    cube: &mut [u8],
    flags: &mut [u8],
    file: &mut [u8],
    counts: &mut [u64; 16],
) -> u64
    ensures { ReceiveExport (ReceiveOutcome reduction air.now (lent cube.old flags.old file.old) (lent cube.new flags.new file.new)) counts.new result }
{
    match receiver::receive_pack(air, cube, flags, file) {
        Err(f) => {
            *counts = [0; 16];
            crate::refusal_word(f)
        }
        Ok(received) => {
            *counts = receive_counts(received);
            ending_word(received.ending)
        }
    }
}

// The receiver's counts in their sixteen places, an array since C lends one; `as` as in `size_word`. No From: neither `Received` nor an array is this
// crate's own.
pub(crate) fn receive_counts(received: Received) -> [u64; 16]
    ensures { result ≡ places (gives (reception_of received.ending)) received.counts }
{
    let counted = received.counts;
    let mut counts = [0u64; 16];
    counts[0] = file_bytes(received.ending);
    counts[1] = counted.packets as u64;
    counts[2] = counted.repeats as u64;
    counts[13] = counted.conflicts as u64;
    counts
}

// The bytes of the file that came out, 0 where none did.
fn file_bytes(ending: Ending) -> u64
    ensures { result ≡ file_bytes (gives (reception_of ending)) }
{
    match ending {
        Ending::File(n) => n as u64,
        Ending::Left(_) => 0,
    }
}

// An ending as its word.
pub(crate) fn ending_word(ending: Ending) -> u64
    requires { beside reception_left (gives (reception_of ending)) < 2 ^ 45 }
    ensures { result ≡ packed reception_left (gives (reception_of ending)) }
{
    match ending {
        Ending::File(_) => 0,
        Ending::Left(n) => 256 * (n as u64),
    }
}
