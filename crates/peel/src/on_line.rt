// Lines: filling the missing cells of a line where they are one or two, for neighbouring lines that miss the same places at once.
ghost use Rattle.std.specs.Prelude.{◌≡◌, true, ℕ, ◌+◌, ◌*◌, ◌≤◌, ◌<◌, length, set};
ghost use Rattle.shape.specs.Shapes.{Valid, cells};
ghost use Rattle.shape.specs.Flags.{missing};
ghost use Rattle.data.specs.Data.{IsCube};
ghost use Rattle.field.specs.Field.{reduction};
ghost use Rattle.line.proofs.Runs.{Solved};
ghost use Rattle.erasures.specs.Erasures.{Places, Scanned};
ghost use Rattle.peel.specs.Peel.{Sized};
ghost use Rattle.peel.specs.Inner.Wake.{Woken};
ghost use Rattle.peel.specs.Inner.OnLine.{Neighbours, Alike, Flagged, LinesVisited, run_of};

use crate::wake;
use erasures::MissingPlaces;
use line::Run;
use shape::flags::MARKED;
use shape::{Line, Shape};

// How many neighbouring lines were visited, and how many cells filled on them.
#[derive(Clone, Copy)]
pub(crate) struct Progress {
    pub lines: usize,
    pub filled: usize,
}

// Visits a line: where it misses one or two cells, fills it together with the lines beside it that miss the same places. `most` lines
// stand side by side. No method of `Peeling`: once a method has lent its flags to a scan, the proof knows no more of them than their length.
pub(crate) fn fill_lines(
    cube: &mut [u8],
    flags: &mut [u8],
    marks: &mut [u8; 24576],
    sh: Shape,
    line: Line,
    most: usize,
) -> Progress
    requires sized { Sized sh cube.old flags.old }
    requires neighbours { Neighbours sh line.first line.stride line.len most }
    ensures le_lines { (1 ≤ result.lines) × (result.lines ≤ most) }
    ensures lines_visited { LinesVisited reduction sh line.first line.stride line.len result.lines cube.old flags.old marks.old cube.new flags.new marks.new result.filled }
{
    let e = erasures::scan_line(flags, line);
    if e.count == 0 || 2 < e.count {
        return Progress {
            lines: 1,
            filled: 0,
        };
    }
    let n = alike(flags, line, e, most);
    recover(cube, sh, line, e, n);
    flag_holes(flags, marks, sh, line, e, n);
    Progress {
        lines: n,
        filled: e.count * n,
    }
}

// How many lines from this one on miss the same one or two places.
fn alike(flags: &[u8], line: Line, e: MissingPlaces, most: usize) -> usize
    requires le_most { (1 ≤ most) × (1 ≤ e.count) × (e.count ≤ 2) }
    requires by_index { (q : ℕ) → q < most → Places flags.now (line.first + q) line.stride line.len }
    requires scanned { Scanned (missing flags.now) line.first line.stride line.len e.count e.first e.last }
    ensures { (1 ≤ result) × (result ≤ most) × Alike (missing flags.now) line.first line.stride line.len result e.count e.first e.last }
{
    (1..most)
        .find(|n| !same_places(flags, line, e, *n))
        .unwrap_or(most)
}

// Whether the line n lines further misses the same places.
fn same_places(flags: &[u8], line: Line, e: MissingPlaces, n: usize) -> bool
    requires { Places flags.now (line.first + n) line.stride line.len }
    ensures { result ≡ true → Scanned (missing flags.now) (line.first + n) line.stride line.len e.count e.first e.last }
{
    let next = Line {
        first: line.first + n,
        ..line
    };
    erasures::scan_line(flags, next) == e
}

// Writes the missing cells of n neighbouring lines. Their run is written out here, as in `cube`, `fill` and `mend`, each in its own width: a function of
// all four would be public, ask nothing of its caller, and test each product.
fn recover(cube: &mut [u8], sh: Shape, line: Line, e: MissingPlaces, n: usize)
    requires is_cube { IsCube sh cube.old }
    requires neighbours { Neighbours sh line.first line.stride line.len n }
    requires first_le_last { (e.first ≤ e.last) × (e.last < line.len) }
    ensures { Solved reduction (run_of sh line.first line.stride line.len n) e.first e.last cube.old cube.new }
{
    let w = sh.w;
    let run = Run {
        first: line.first * w,
        stride: line.stride * w,
        len: line.len,
        width: n * w,
    };
    let reduction = field::reduction();
    // `as`: there is no From of usize for u8, and places are below 255.
    let erasures = line::erasures_at(reduction, e.first as u8, e.last as u8);
    line::solve(cube, reduction, run, erasures);
}

// Gives the missing cells of n neighbouring lines flag 3, and wakes the lines through them. A line, its holes and how many stay three: each function here
// goes on with other lines.
fn flag_holes(
    flags: &mut [u8],
    marks: &mut [u8; 24576],
    sh: Shape,
    line: Line,
    e: MissingPlaces,
    n: usize,
)
    requires valid { Valid sh × (length flags.old ≡ cells sh) }
    requires neighbours { Neighbours sh line.first line.stride line.len n }
    requires first_le_last { (e.first ≤ e.last) × (e.last < line.len) }
    ensures { Flagged sh line.first line.stride n e.first e.last flags.old marks.old flags.new marks.new }
{
    for q in 0..n {
        let first = line.first + q;
        flag_hole(flags, marks, sh, first + line.stride * e.first);
        flag_hole(flags, marks, sh, first + line.stride * e.last);
    }
}

fn flag_hole(flags: &mut [u8], marks: &mut [u8; 24576], sh: Shape, n: usize)
    requires { Valid sh × (n < cells sh) × (length flags.old ≡ cells sh) }
    ensures flags_after { flags.new ≡ set flags.old n 3 }
    ensures woken { Woken sh n marks.old marks.new }
{
    flags[n] = MARKED;
    wake::wake(marks, sh, n);
}
