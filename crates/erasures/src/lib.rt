// Erasures: which cells of a line are missing, counted up to the third. No field stands below it.
#![tactic(auto)]

ghost use Rattle.std.specs.Prelude.{◌≡◌};
ghost use Rattle.answer.specs.Values.{value_of, checked};
ghost use Rattle.shape.specs.Flags.{missing};
ghost use Rattle.span.specs.Decision.{Decides};
ghost use Rattle.erasures.specs.Scan.{places_read, scan_of};
ghost use Rattle.erasures.specs.Erasures.{Places, Scanned, LineOutcome};

use answer::{Fault, Refusal};
use shape::flags::MISSING;
use shape::{Line, Shape};

// What a scan of a line tells: how many erasures were found, at most three, and how many places were read to find them (request P2: holes and
// places read).
#[derive(Clone, Copy, PartialEq, Eq, Debug)]
pub struct ScanCounts {
    pub erasures: usize,
    pub read: usize,
}

// The missing cells of a line: how many, at most three, how many places were read, and the first and the last of them that misses a cell. The count
// says whether there are such places: with none both are 0, as `LineOutcome` has it, and an Option of them would say the same a second time.
#[derive(Clone, Copy, PartialEq, Eq, Debug)]
pub struct MissingPlaces {
    pub count: usize,
    pub read: usize,
    pub first: usize,
    pub last: usize,
}

// What is found on a line that is not looked at.
const NONE: MissingPlaces = MissingPlaces {
    count: 0,
    read: 0,
    first: 0,
    last: 0,
};

// Scans a line of an axis up to its third erasure, lines numbered by the cell number of their first cell. Flags behind the places read may be
// anything, and no flag is refused: a scan that asked them all would not stop.
pub fn scan(flags: &[u8], sh: Shape, axis: usize, line: usize) -> Result<ScanCounts, Refusal>
    ensures { value_of result ≡ checked (scan_of flags.now sh axis line) }
{
    let found = shape::axis_line(sh, axis, line)?;
    let z = shape::measure(sh)?;
    if flags.len() != z.cells {
        return Err(Refusal::Plain(Fault::SliceLength));
    }
    let e = scan_line(flags, found);
    Ok(ScanCounts {
        erasures: e.count,
        read: e.read,
    })
}

// The missing cells of a line whose places all have a flag; no other line is looked at, and nothing found on it.
pub fn scan_line(flags: &[u8], line: Line) -> MissingPlaces
    ensures { LineOutcome flags.now line.first line.stride line.len result.count result.read result.first result.last }
{
    if !has_flags(flags, line) {
        return NONE;
    }
    look(flags, line)
}

// Whether every place of a line has a flag: the last one decides, and each test rules out one way for the product to be too large. Lengths and strides
// up to those of a cube keep the product small.
fn has_flags(flags: &[u8], line: Line) -> bool
    ensures { Decides (Places flags.now line.first line.stride line.len) result }
{
    let Line { first, stride, len } = line;
    if len == 0 || 255 < len || 65025 < stride || flags.len() <= first {
        return false;
    }
    stride * (len - 1) < flags.len() - first
}

// Looks at a line up to its third missing cell: with three it is not filled, and need not be read on. One loop over the places: a filter over them would be
// asked three times, and say neither that no fourth is looked for nor how many were read.
fn look(flags: &[u8], line: Line) -> MissingPlaces
    requires { Places flags.now line.first line.stride line.len }
    ensures scanned { Scanned (missing flags.now) line.first line.stride line.len result.count result.first result.last }
    ensures read_value { result.read ≡ places_read (missing flags.now) line.first line.stride line.len }
{
    let Line { first, stride, len } = line;
    let mut e = MissingPlaces { read: len, ..NONE };
    for i in 0..len {
        if flags[first + stride * i] == MISSING {
            if e.count == 0 {
                e.first = i;
            }
            e.last = i;
            e.count += 1;
            if e.count == 3 {
                e.read = i + 1;
                break;
            }
        }
    }
    e
}
