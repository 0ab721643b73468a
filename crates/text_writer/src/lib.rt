// From an air pack of count 5 to its text: the text's length, and its lines one behind the other in a slice of exactly that length.
#![tactic(auto)]

ghost use Rattle.std.specs.Prelude.{◌≡◌, ◌+◌, ◌*◌, ◌≤◌, ◌<◌, length};
ghost use Rattle.answer.specs.Values.{value_of, checked, passes};
ghost use Rattle.shape.specs.Shapes.{Valid};
ghost use Rattle.pack.specs.Reading.{plain_air_of};
ghost use Rattle.pack.specs.Packets.{packet_in, packets_in};
ghost use Rattle.printing.specs.Text.{decimal};
ghost use Rattle.printing.specs.Append.{Appended};
ghost use Rattle.text.specs.Form.{hex_bytes, packet_line, packet_lines, first_line};
ghost use Rattle.text.specs.Text.{text_in, text_size_checked, WriteTextOutcome};

use answer::{Fault, PacketFault, Refusal};
use pack::Packets;
use shape::Shape;

// The packets of an air pack of count 5 that was read.
#[derive(Clone, Copy)]
struct Air<'a> {
    packets: Packets<'a>,
    ghost plain: { plain_air_of packets.bytes.now ≡ passes (packets.header, packets.section) },
    ghost few: { packets.section.count < 4294967296 },
}

// The bytes of a pack's text. `Air` is made here and in `write_text`: a function for both had to promise what its two ghost fields say.
pub fn text_bytes(air: &[u8]) -> Result<usize, Refusal>
    ensures { value_of result ≡ checked (text_size_checked air.now) }
{
    let (header, section) = pack::read_plain_air(air)?;
    let packets = Packets {
        bytes: air,
        header,
        section,
    };
    Ok(Air { packets }.text_length())
}

// Writes the text of a pack over the whole of `text`.
pub fn write_text(air: &[u8], text: &mut [u8]) -> Result<(), Refusal>
    ensures { WriteTextOutcome air.now text.old text.new (value_of result) }
{
    let (header, section) = pack::read_plain_air(air)?;
    let packets = Packets {
        bytes: air,
        header,
        section,
    };
    Air { packets }.write(text)
}

impl Air<'_> {
    // The checks 4 and 11, then the text.
    fn write(&self, text: &mut [u8]) -> Result<(), Refusal>
        ensures { WriteTextOutcome self.now.packets.bytes.now text.old text.new (value_of result) }
    {
        if text.len() != self.text_length() {
            return Err(Refusal::Plain(Fault::SliceLength));
        }
        if let Some(i) = self.packets.first_outside() {
            return Err(Refusal::Packet(PacketFault::CellIndex, i as u64));
        }
        self.put(text);
        Ok(())
    }

    // The line of the shape, then the packets. `printing` stands on `io` alone, so that the four numbers are handed on here and in `receive`, each by a cast:
    // there is no From of usize for u64.
    fn put(&self, text: &mut [u8])
        requires { let k = self.now.packets in length text.old ≡ length (text_in k.bytes.now (k.header, k.section)) }
        ensures { let k = self.now.packets in text.new ≡ text_in k.bytes.now (k.header, k.section) }
    {
        let sh = self.packets.header.shape;
        let behind = printing::append_shape(
            text,
            0,
            sh.l1 as u64,
            sh.l2 as u64,
            sh.l3 as u64,
            sh.w as u64,
        );
        self.append_lines(text, behind);
    }

    // A line for each packet.
    fn append_lines(&self, text: &mut [u8], from: usize) -> usize
        requires { let k = self.now.packets in from + length (packet_lines (packets_in k.bytes.now k.header k.section)) ≤ length text.old }
        ensures { let k = self.now.packets in Appended text.old from (packet_lines (packets_in k.bytes.now k.header k.section)) text.new result }
    {
        let mut at = from;
        for i in 0..self.packets.section.count {
            at = self.append_packet(text, at, i);
        }
        at
    }

    // The line of packet i. Every packet of a pack that was read stands in it, so that nothing is left out.
    fn append_packet(&self, text: &mut [u8], at: usize, i: usize) -> usize
        requires { let k = self.now.packets in (i < k.section.count)
            × (at + length (packet_line (packet_in k.bytes.now k.header k.section i)) ≤ length text.old) }
        ensures { let k = self.now.packets in Appended text.old at (packet_line (packet_in k.bytes.now k.header k.section i)) text.new result }
    {
        let Some((a, b, c, from)) = self.packets.parts(i) else {
            return at;
        };
        let cell = printing::append_triple(
            text,
            at,
            b"packet ",
            u64::from(a),
            u64::from(b),
            u64::from(c),
        );
        let end = append_bytes(
            text,
            cell,
            &self.packets.bytes[from..from + self.packets.header.shape.w],
        );
        printing::append(text, end, b"\n")
    }

    // The length of the text. No `sum`: that it stays in a machine word is known from turn to turn.
    fn text_length(&self) -> usize
        ensures { let k = self.now.packets in result ≡ length (text_in k.bytes.now (k.header, k.section)) }
    {
        let mut len = first_length(self.packets.header.shape);
        for i in 0..self.packets.section.count {
            len += self.line_length(i);
        }
        len
    }

    // The length of the line of packet i: its label, numbers, spaces and newline, and three characters a byte. No packet is without parts.
    fn line_length(&self, i: usize) -> usize
        requires { i < self.now.packets.section.count }
        ensures { let k = self.now.packets in (result ≡ length (packet_line (packet_in k.bytes.now k.header k.section i))) × (result ≤ 3142) }
    {
        let Some((a, b, c, _)) = self.packets.parts(i) else {
            return 0;
        };
        let digits = decimal_length(usize::from(a))
            + decimal_length(usize::from(b))
            + decimal_length(usize::from(c));
        10 + digits + 3 * self.packets.header.shape.w
    }
}

// A space and two digits for each byte, three stores a byte. By index: std does not say what a slice holds once an adapter of `iter_mut` has written it.
fn append_bytes(text: &mut [u8], at: usize, bytes: &[u8]) -> usize
    requires { at + 3 * length bytes.now ≤ length text.old }
    ensures { Appended text.old at (hex_bytes bytes.now) text.new result }
{
    for (i, b) in bytes.iter().enumerate() {
        let k = at + 3 * i;
        let digits = printing::hex_digits(*b);
        text[k] = b' ';
        text[k + 1] = digits[0];
        text[k + 2] = digits[1];
    }
    at + 3 * bytes.len()
}

fn first_length(sh: Shape) -> usize
    requires { Valid sh }
    ensures { result ≡ length (first_line sh) }
{
    10 + decimal_length(sh.l1)
        + decimal_length(sh.l2)
        + decimal_length(sh.l3)
        + decimal_length(sh.w)
}

// How many digits a number of at most four has. By comparisons: by `checked_ilog10` the length of a text took half as long again.
fn decimal_length(n: usize) -> usize
    requires { n < 10000 }
    ensures { (result ≡ length (decimal n)) × (result ≤ 4) }
{
    match n {
        0..=9 => 1,
        10..=99 => 2,
        100..=999 => 3,
        _ => 4,
    }
}
