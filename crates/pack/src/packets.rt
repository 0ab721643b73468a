// The packets of a section: the cell that each names and where its bytes stand, and check 11.
ghost use Rattle.std.specs.Prelude.{◌≡◌, true, false, ℕ, ◌+◌, ◌*◌, ◌≤◌, ◌<◌, MatchOption};
ghost use Rattle.shape.specs.Shapes.{cells, cell};
ghost use Rattle.pack.specs.Packs.{unsent};
ghost use Rattle.pack.specs.Packets.{source, OnCube, PacketOutcome, PartsOutcome, FirstOutside};
ghost use Rattle.pack.specs.Inner.Packets.{within_limits, named_by, FirstOff, FirstUnsent};

use crate::reading::data_cells;
use crate::{Header, Section};
use shape::Shape;

// The packets of a pack: its bytes, and the header and the section that were read from them.
#[derive(Clone, Copy)]
pub struct Packets<'a> {
    pub bytes: &'a [u8],
    pub header: Header,
    pub section: Section,
}

impl Packets<'_> {
    // The first packet that names no cell that is sent. Mostly every cell is sent, and then no packet is asked for more than its coordinates.
    pub fn first_outside(&self) -> Option<usize>
        ensures { let k = self.now in MatchOption result (FirstOutside k.bytes.now k.header k.section k.section.count)
            (λ i. FirstOutside k.bytes.now k.header k.section i × (i < k.section.count)) }
    {
        let off = self.first_off();
        if all_sent(self.header) {
            return off;
        }
        self.first_unsent(off.unwrap_or(self.section.count)).or(off)
    }

    // The first packet that names no cell of the cube.
    fn first_off(&self) -> Option<usize>
        ensures { let k = self.now in MatchOption result (FirstOff k.bytes.now k.header k.section k.section.count)
            (λ i. FirstOff k.bytes.now k.header k.section i × (i < k.section.count)) }
    {
        // Both loops go over a copy, whose fields stay in registers. By `find` and its closure receiving single bytes took 1.5 times as long.
        let packets = *self;
        for i in 0..packets.section.count {
            if packets.packet(i).is_none() {
                return Some(i);
            }
        }
        None
    }

    // The first of the packets before `end` that names a cell that is not sent.
    fn first_unsent(&self, end: usize) -> Option<usize>
        requires { (i : ℕ) → i < end → OnCube self.now.bytes.now self.now.header self.now.section i }
        ensures { FirstUnsent self.now.bytes.now self.now.header self.now.section end result }
    {
        let packets = *self;
        for j in 0..end {
            if packets.names_unsent(j) {
                return Some(j);
            }
        }
        None
    }

    // Whether packet i names a cell that is not sent.
    fn names_unsent(&self, i: usize) -> bool
        requires { OnCube self.now.bytes.now self.now.header self.now.section i }
        ensures { let k = self.now in result ≡ unsent k.header ((source k.bytes.now k.header k.section).place i) }
    {
        // No `is_some_and`: what `is_unsent` asks is known of these parts alone, and a closure would ask it of any.
        let Some((a, b, c, _)) = self.parts(i) else {
            return false;
        };
        is_unsent(self.header, a, b, c)
    }

    // Packet i: the cell that it names, and where its bytes begin.
    pub fn packet(&self, i: usize) -> Option<(usize, usize)>
        ensures { PacketOutcome self.now.bytes.now self.now.header self.now.section i result }
    {
        let (a, b, c, at) = self.parts(i)?;
        named(self.header.shape, a, b, c, at)
    }

    // Packet i as it stands there, a, b, c and where its bytes begin, without check 11: a tuple, since each caller takes it apart at once. The limits keep
    // all products in a machine word; every header that was read is within them.
    pub fn parts(&self, i: usize) -> Option<(u8, u8, u8, usize)>
        ensures { PartsOutcome self.now.bytes.now self.now.header self.now.section i result }
    {
        let sh = self.header.shape;
        if !within_limits(sh) {
            return None;
        }
        let size = 3 + sh.w;
        let s = self.section;
        let pack = self.bytes;
        if !lies_in(pack.len(), s.at, i, size) {
            return None;
        }
        let at = s.at + i * size;
        Some((pack[at], pack[at + 1], pack[at + 2], at + 3))
    }
}

// Whether a look at the header tells that every cell is sent.
fn all_sent(h: Header) -> bool
    ensures { result ≡ true → (n : ℕ) → n < cells h.shape → unsent h n ≡ false }
{
    shape::measure(h.shape).is_ok() && data_cells(h.shape) <= h.used
}

fn within_limits(sh: Shape) -> bool
    ensures { result ≡ within_limits sh }
{
    sh.l1 <= 255 && sh.l2 <= 255 && sh.w <= 1024
}

// Whether packet i of those from a place on lies in the pack. In a loop over packets the quotient is taken once, and one comparison a packet is left.
fn lies_in(len: usize, at: usize, i: usize, size: usize) -> bool
    requires { 0 < size }
    ensures { (result ≡ true → at + i * size + size ≤ len) × (result ≡ false → len < at + i * size + size) }
{
    at <= len && i < (len - at) / size
}

// The cell that a, b and c name, where they are below their lengths; an `if`, as `named_by` has it.
fn named(sh: Shape, a: u8, b: u8, c: u8, at: usize) -> Option<(usize, usize)>
    requires { (sh.l1 ≤ 255) × (sh.l2 ≤ 255) }
    ensures { result ≡ named_by sh a b c at }
{
    let (a, b, c) = (usize::from(a), usize::from(b), usize::from(c));
    if a < sh.l1 && b < sh.l2 && c < sh.l3 {
        Some((a + sh.l1 * (b + sh.l2 * c), at))
    } else {
        None
    }
}

// Whether cell (a,b,c) is a data cell beyond those in use.
fn is_unsent(h: Header, a: u8, b: u8, c: u8) -> bool
    requires { (h.shape.l1 ≤ 255) × (h.shape.l2 ≤ 255) × (a < h.shape.l1) × (b < h.shape.l2) × (c < h.shape.l3) }
    ensures { result ≡ unsent h (cell h.shape a b c) }
{
    let (a, b, c) = (usize::from(a), usize::from(b), usize::from(c));
    let sh = h.shape;
    a + 2 < sh.l1
        && b + 2 < sh.l2
        && c + 2 < sh.l3
        && h.used <= a + (sh.l1 - 2) * (b + (sh.l2 - 2) * c)
}
