// The lines of a text: line 1 with the shape, and the lines of packets. The text and a place in it stay two parameters of every function: callers
// keep the place alone, and what each promises names both. Numbers read go back as a tuple with the place behind them, which is taken apart at once.
ghost use Rattle.std.specs.Prelude.{◌≡◌, ◌+◌, ◌*◌, ◌≤◌, ◌<◌, length};
ghost use Rattle.printing.specs.Text.{numbered};
ghost use Rattle.span.specs.Decision.{Decides};
ghost use Rattle.text.specs.Inner.Numbers.{Short, NumberOutcome};
ghost use Rattle.text.specs.Inner.Lines.{char_kind, Pair, Pairs, HexLine, ThreeOutcome, PacketLineOutcome, ShapeLineOutcome};

use crate::numbers::number;
use shape::Shape;

// The line `packet a b c` with w bytes that begins at a place.
pub(crate) fn packet_line(text: &[u8], at: usize, w: usize) -> Option<(usize, usize, usize, usize)>
    requires { (at ≤ length text.now) × Short w }
    ensures { PacketLineOutcome w text.now at result }
{
    let (a, b, c, end) = three(text, at, b"packet ")?;
    if !hex_line(text, end, w) {
        return None;
    }
    Some((a, b, c, end + 3 * w + 1))
}

// The line `shape L1 L2 L3 W` at the text's start.
pub(crate) fn shape_line(text: &[u8]) -> Option<(Shape, usize)>
    ensures { ShapeLineOutcome text.now result }
{
    let (l1, l2, l3, end) = three(text, 0, b"shape ")?;
    let (w, last) = labelled(text, end, b" ")?;
    if !hex_line(text, last, 0) {
        return None;
    }
    Some((Shape { l1, l2, l3, w }, last + 1))
}

// A label and three numbers, with single spaces between. A tuple: each caller takes it apart at once, to lengths or to coordinates.
pub(crate) fn three(text: &[u8], at: usize, label: &[u8]) -> Option<(usize, usize, usize, usize)>
    requires { at ≤ length text.now }
    ensures { ThreeOutcome label.now text.now at result }
{
    let (a, behind_a) = labelled(text, at, label)?;
    let (b, behind_b) = labelled(text, behind_a, b" ")?;
    let (c, end) = labelled(text, behind_b, b" ")?;
    Some((a, b, c, end))
}

// A label, then a number.
fn labelled(text: &[u8], at: usize, label: &[u8]) -> Option<(usize, usize)>
    requires { at ≤ length text.now }
    ensures { NumberOutcome (numbered label.now) text.now at result }
{
    let size = label.len();
    if !span::same(text, label, at, 0, size) {
        return None;
    }
    number(text, at + size)
}

// Whether w bytes, a space before each, and a newline stand at a place. The newline's `get` asks once for the whole line that they lie in the text.
fn hex_line(text: &[u8], at: usize, w: usize) -> bool
    requires { Short w × (at ≤ length text.now) }
    ensures { Decides (HexLine w text.now at) result }
{
    text.get(at + 3 * w) == Some(&b'\n') && pairs(text, at, w)
}

// Whether w bytes stand at a place, a space before each. Every character is of the kind of the third before it: the differences are
// joined by or, and not asked for by `all`, so that many characters are compared at once.
fn pairs(text: &[u8], at: usize, w: usize) -> bool
    requires { Short w × (at + 3 * w ≤ length text.now) }
    ensures { Decides (Pairs text.now at w) result }
{
    if w == 0 {
        return true;
    }
    if !pair(text, at) {
        return false;
    }
    let fours = text[at..at + 3 * w].windows(4);
    fours.fold(0, |differs, c| differs | (kind(c[0]) ^ kind(c[3]))) == 0
}

// Whether a space and two hexadecimal digits stand at a place.
fn pair(text: &[u8], at: usize) -> bool
    requires { at + 3 ≤ length text.now }
    ensures { Decides (Pair text.now at) result }
{
    (kind(text[at]) ^ 1) | kind(text[at + 1]) | kind(text[at + 2]) == 0
}

// The kind of a character: 0 for a hexadecimal digit in lower case, 1 for a space, 2 for any other. The kinds are numbers and no enum, since
// `pairs` joins them by xor and or.
#[tactic(auto, unfolding(crate::specs::Inner::Lines::char_kind))]
fn kind(c: u8) -> u8
    ensures { result ≡ char_kind c }
{
    match c {
        b'0'..=b'9' | b'a'..=b'f' => 0,
        b' ' => 1,
        _ => 2,
    }
}
