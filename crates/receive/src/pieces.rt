// The text of an outcome in pieces: its opening lines, then runs of the file's bytes or of the holes.
ghost use Rattle.std.specs.Prelude.{◌≡◌, ◌-◌, ◌≤◌, ◌<◌, min, length, take};
ghost use Rattle.shape.specs.Shapes.{Valid, cells};
ghost use Rattle.io.specs.Counts.{IsPrefixLen};
ghost use Rattle.printing.specs.Append.{Appended};
ghost use Rattle.receive.specs.Printed.{cells_left, hole_line, head_lines, opening_lines, byte_text, hole_text, joined, texts, text_of};
ghost use Rattle.receive.specs.Pieces.{piece, pieces};
ghost use Rattle.receive.specs.Inner.Memory.{IsMemory, Fits};

use crate::receiving::{Outcome, Report};
use receiver::{Ending, Received};
use shape::{Shape, flags};

// An outcome that is printed, with the memory that its bytes and its holes are read from.
#[derive(Clone, Copy)]
pub(crate) struct Text<'a> {
    pub(crate) flags: &'a [u8],
    pub(crate) file: &'a [u8],
    pub(crate) outcome: Outcome,
    ghost flags_whole: { IsMemory flags.now },
    ghost file_whole: { IsMemory file.now },
    ghost fits: { Fits outcome },
}

impl Text<'_> {
    // How many pieces it is printed in.
    pub(crate) fn count(&self) -> usize
        ensures { result ≡ pieces self.now.outcome }
    {
        1 + self.texts().div_ceil(512)
    }

    // Puts piece k at the start of `out`, and answers where it ends. The end alone: the slice up to it would keep `out` lent.
    pub(crate) fn piece(&self, out: &mut [u8], k: usize) -> usize
        requires { IsMemory out.old × (k < pieces self.now.outcome) }
        ensures prefix_len { IsPrefixLen result out.new }
        ensures out_after { take result out.new ≡ piece self.now.flags.now self.now.file.now self.now.outcome k }
    {
        if k == 0 {
            return opening(out, self.outcome);
        }
        self.run(out, 512 * (k - 1))
    }

    // The texts from one on, 512 or as many as there are. A loop and no `fold`: the buffer is written to in each turn.
    fn run(&self, out: &mut [u8], from: usize) -> usize
        requires { IsMemory out.old × (from < texts self.now.outcome) }
        ensures prefix_len { IsPrefixLen result out.new }
        ensures out_after { take result out.new ≡
            joined (text_of self.now.flags.now self.now.file.now self.now.outcome) from (min 512 (texts self.now.outcome - from)) }
    {
        let count = (self.texts() - from).min(512);
        let mut at = 0;
        for i in 0..count {
            at = self.append_text(out, at, from + i);
        }
        at
    }

    // How many texts stand behind the opening lines: one a byte of the file, or one a cell where cells are left.
    fn texts(&self) -> usize
        ensures { result ≡ texts self.now.outcome }
    {
        match self.outcome {
            Outcome::TooBig | Outcome::Refused(_) => 0,
            Outcome::Came(report) => match report.received.ending {
                Ending::File(n) => n,
                Ending::Left(_) => cells(report.shape),
            },
        }
    }

    // Text i of them.
    fn append_text(&self, out: &mut [u8], at: usize, i: usize) -> usize
        requires { (at ≤ length out.old) × (i < texts self.now.outcome) }
        ensures { Appended out.old at (text_of self.now.flags.now self.now.file.now self.now.outcome i) out.new result }
    {
        match self.outcome {
            Outcome::TooBig | Outcome::Refused(_) => at,
            Outcome::Came(report) => match report.received.ending {
                Ending::File(n) => append_byte(out, at, &self.file[..n], i),
                Ending::Left(_) => append_cell(out, at, self.flags, report.shape, i),
            },
        }
    }
}

// The lines that stand before the bytes or the holes.
fn opening(out: &mut [u8], outcome: Outcome) -> usize
    requires { IsMemory out.old }
    ensures prefix_len { IsPrefixLen result out.new }
    ensures out_after { take result out.new ≡ opening_lines outcome }
{
    match outcome {
        Outcome::TooBig => printing::append(out, 0, b"too big\n"),
        Outcome::Refused(f) => printing::append_refused(out, 0, f),
        Outcome::Came(report) => append_report(out, report),
    }
}

// The cells of a shape. Its sizes would be measured anew for it, by a call that may refuse.
#[tactic(auto, unfolding(shape::specs::Shapes::cells))]
fn cells(sh: Shape) -> usize
    requires { Valid sh }
    ensures { result ≡ cells sh }
{
    sh.l1 * sh.l2 * sh.l3
}

// The first lines, and the file's length where there is one.
fn append_report(out: &mut [u8], report: Report) -> usize
    ensures { Appended out.old 0 (opening_lines (Outcome.Came report)) out.new result }
{
    let behind = append_head(out, report);
    match report.received.ending {
        Ending::File(n) => printing::append_line(out, behind, b"file ", n as u64),
        Ending::Left(_) => behind,
    }
}

// Shape, packets, repeats and cells left, a line each. `as`, here and below: there is no From of usize for u64. The line of a shape takes four numbers,
// since `printing` stands on `io` alone.
fn append_head(out: &mut [u8], report: Report) -> usize
    ensures { Appended out.old 0 (head_lines report) out.new result }
{
    let sh = report.shape;
    let shape = printing::append_shape(
        out,
        0,
        sh.l1 as u64,
        sh.l2 as u64,
        sh.l3 as u64,
        sh.w as u64,
    );
    let Received { counts, ending } = report.received;
    let packets = printing::append_line(out, shape, b"packets ", counts.packets as u64);
    let repeats = printing::append_line(out, packets, b"repeats ", counts.repeats as u64);
    printing::append_line(out, repeats, b"left ", cells_left(ending) as u64)
}

// The cells left; none where a file came out.
#[tactic(auto, unfolding(crate::specs::Printed::cells_left))]
fn cells_left(ending: Ending) -> usize
    ensures { result ≡ cells_left ending }
{
    match ending {
        Ending::File(_) => 0,
        Ending::Left(n) => n,
    }
}

// Byte i of a file, and what stands behind it.
fn append_byte(out: &mut [u8], at: usize, file: &[u8], i: usize) -> usize
    requires { i < length file.now }
    ensures { Appended out.old at (byte_text file.now (length file.now) i) out.new result }
{
    let behind = printing::append_hex(out, at, file[i]);
    printing::append(out, behind, &[separator(file.len(), i)])
}

// A newline ends a line of 16 bytes, and the last line.
fn separator(n: usize, i: usize) -> u8
    requires { i < 18446744073709551615 }
    ensures { result ≡ Rattle.receive.specs.Printed.separator n i }
{
    if i + 1 == n || i % 16 == 15 {
        b'\n'
    } else {
        b' '
    }
}

// The line of cell m where it is a hole.
fn append_cell(out: &mut [u8], at: usize, flags: &[u8], sh: Shape, m: usize) -> usize
    requires { (m < length flags.now) × Valid sh × (at ≤ length out.old) }
    ensures { Appended out.old at (hole_text sh flags.now m) out.new result }
{
    if flags[m] == flags::MISSING {
        append_hole(out, at, sh, m)
    } else {
        at
    }
}

fn append_hole(out: &mut [u8], at: usize, sh: Shape, m: usize) -> usize
    requires { Valid sh }
    ensures { Appended out.old at (hole_line sh m) out.new result }
{
    let Shape { l1, l2, .. } = sh;
    let behind = printing::append_triple(
        out,
        at,
        b"hole ",
        (m % l1) as u64,
        (m / l1 % l2) as u64,
        (m / (l1 * l2)) as u64,
    );
    printing::append(out, behind, b"\n")
}
