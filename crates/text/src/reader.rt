// From a text to its air pack: the checks of what the first turn found, then a second turn that decodes every packet line.
ghost use Rattle.std.specs.Prelude.{◌≡◌, List, ℕ, ◌+◌, ◌*◌, ◌≤◌, length, drop};
ghost use Rattle.answer.specs.Values.{value_of};
ghost use Rattle.span.specs.Span.{Put};
ghost use Rattle.pack.specs.Packs.{Packet, packet_bytes, packets};
ghost use Rattle.pack_writer.specs.Writing.{Laid};
ghost use Rattle.text.specs.Text.{ReadTextOutcome, PackSizeOutcome};
ghost use Rattle.text.specs.Inner.Lines.{hex_value, pair_bytes, HexLine};
ghost use Rattle.text.specs.Inner.Scan.{Scanning};
ghost use Rattle.text.specs.Inner.Reader.{Read, LineOf, Line};

use crate::lines::three;
use crate::scan::{Contents, scan};
use answer::{Fault, PacketFault, Refusal};
use cursor::Cursor;

// Where the next line and the next packet begin.
#[derive(Clone, Copy)]
pub(crate) struct Turn {
    pub(crate) at: usize,
    pub(crate) next: Cursor,
}

// The bytes of a text's pack. `as` here and below: a text in the form has less than 2^32 packets, and a packet inside the shape lengths below 256.
pub fn text_pack_bytes(text: &[u8]) -> Result<usize, Refusal>
    ensures { PackSizeOutcome text.now (value_of result) }
{
    let s = scan(text)?;
    pack_writer::air_bytes(s.shape, s.packets)
}

// Reads a text to its air pack, over the whole of `air`.
pub fn read_text(text: &[u8], air: &mut [u8]) -> Result<(), Refusal>
    ensures { ReadTextOutcome text.now air.old air.new (value_of result) }
{
    let s = scan(text)?;
    read_whole(text, air, s)
}

// The checks 1, 2, 3, 10, 4 and 11 of a text in the form, then its pack.
fn read_whole(text: &[u8], air: &mut [u8], s: Contents) -> Result<(), Refusal>
    requires { Read text.now s }
    ensures { ReadTextOutcome text.now air.old air.new (value_of result) }
{
    let size = pack_writer::air_bytes(s.shape, s.packets)?;
    if air.len() != size {
        return Err(Refusal::Plain(Fault::SliceLength));
    }
    if s.inside < s.packets {
        return Err(Refusal::Packet(PacketFault::CellIndex, u64::from(s.inside)));
    }
    let first = pack_writer::start_air(air, s.shape, s.packets)?;
    put_packets(text, air, s, first);
    Ok(())
}

// A packet for each line.
fn put_packets(text: &[u8], air: &mut [u8], s: Contents, first: Cursor)
    requires { Read text.now s × (s.inside ≡ s.packets) × (s.shape.l1 ≤ 255) × (s.shape.l2 ≤ 255) × (s.shape.l3 ≤ 255)
        × (first.at + s.packets * (3 + s.shape.w) ≤ length air.old) }
    ensures { (ks : List Packet) → Scanning text.now s ks → Put air.old first.at (packets ks) air.new }
{
    let w = s.shape.w;
    let mut turn = Turn {
        at: s.lines,
        next: first,
    };
    for _i in 0..s.packets {
        turn = put_packet(text, air, turn, w);
    }
}

// The packet of one line, whose numbers the first turn has read already: they stand there.
fn put_packet(text: &[u8], air: &mut [u8], turn: Turn, w: usize) -> Turn
    requires { Line w text.now turn.at × (turn.next.at + (3 + w) ≤ length air.old) }
    ensures { (k : Packet) (rest : List ℕ) → LineOf w text.now turn.at k rest
        → Laid air.old turn.next (packet_bytes k) air.new result.next × (rest ≡ drop result.at text.now) }
{
    let Some((a, b, c, end)) = three(text, turn.at, b"packet ") else {
        return turn;
    };
    // `as`: there is no From of usize for u8, and `try_from` would answer an Err that cannot come; the proof shows that nothing is lost.
    let cell = pack_writer::write_coordinates(air, turn.next, a as u8, b as u8, c as u8);
    let to = cell.at;
    decode(text, air, end, to, w);
    Turn {
        at: end + 3 * w + 1,
        next: Cursor { at: to + w },
    }
}

// The n bytes whose digits begin at a place, a space before each. By index: std does not say what a slice holds once an adapter of `iter_mut` has
// written it.
fn decode(text: &[u8], out: &mut [u8], from: usize, to: usize, n: usize)
    requires { HexLine n text.now from × (to + n ≤ length out.old) }
    ensures { Put out.old to (pair_bytes text.now from n) out.new }
{
    for i in 0..n {
        let k = from + 3 * i;
        out[to + i] = value(text[k + 1]) * 16 + value(text[k + 2]);
    }
}

// The value of a hexadecimal digit in lower case, without a branch.
#[tactic(auto, unfolding(crate::specs::Inner::Lines::hex_value))]
fn value(c: u8) -> u8
    ensures { result ≡ hex_value c }
{
    c % 16 + 9 * (c / 64)
}
