// The first turn over a text: is it in the form, and what does it hold? Nothing is decoded but the numbers.
ghost use Rattle.std.specs.Prelude.{◌+◌, ◌≤◌, ◌<◌};
ghost use Rattle.text.specs.Form.{first_line, Numbers};
ghost use Rattle.text.specs.Inner.Numbers.{Found};
ghost use Rattle.text.specs.Inner.Lines.{Any};
ghost use Rattle.text.specs.Inner.Scan.{ScanOutcome, InsideNext};

use crate::lines::{packet_line, shape_line};
use answer::Refusal;
use shape::Shape;

// The most packets that a text may have.
const MOST: u64 = 4294967295;

// A text in the form: the shape of line 1, the number of packet lines, how many of the first packets lie inside the shape's lengths, and the byte
// where the packet lines begin. Where every packet lies inside, `inside` is their number: it is a count, and no number stands for "none".
#[derive(Clone, Copy)]
pub(crate) struct Contents {
    pub(crate) shape: Shape,
    pub(crate) packets: u32,
    pub(crate) inside: u32,
    pub(crate) lines: usize,
}

// Whether every line of the text is in the form.
pub(crate) fn scan(text: &[u8]) -> Result<Contents, Refusal>
    ensures { ScanOutcome text.now result }
{
    let (sh, lines) = shape_line(text).ok_or(Refusal::Line(1))?;
    scan_packets(text, sh, lines)
}

// The packet lines, from the second line on: up to the text's end, to the most packets that a pack can have, or to a line that is none.
fn scan_packets(text: &[u8], sh: Shape, lines: usize) -> Result<Contents, Refusal>
    requires { Found first_line Numbers Any text.now 0 sh lines }
    ensures { ScanOutcome text.now result }
{
    let mut at = lines;
    let mut n: u64 = 0;
    let mut inside: u64 = 0;
    // No index is counted: a line's end is where the next begins.
    while at < text.len() {
        // Packet n stands on line n + 2.
        let broken = Refusal::Line(n + 2);
        if n == MOST {
            return Err(broken);
        }
        let (a, b, c, end) = packet_line(text, at, sh.w).ok_or(broken)?;
        inside = inside_next(sh, n, inside, a, b, c);
        n += 1;
        at = end;
    }
    // `as`: n is at most `MOST`, and `try_from` would answer an Err that cannot come; the proof shows that nothing is lost.
    Ok(Contents {
        shape: sh,
        packets: n as u32,
        inside: inside as u32,
        lines,
    })
}

// The packets inside from the first on, once packet n with its a, b and c is counted too. They stay three: a packet is they and its bytes, which only the
// second turn reads. `pack` asks the same of a packet of a pack: one function for both would be public, for a comparison in each.
fn inside_next(sh: Shape, n: u64, inside: u64, a: usize, b: usize, c: usize) -> u64
    requires { (inside ≤ n) × (n ≤ 4294967295) }
    ensures { InsideNext sh n inside a b c result }
{
    if inside == n && a < sh.l1 && b < sh.l2 && c < sh.l3 {
        inside + 1
    } else {
        inside
    }
}
