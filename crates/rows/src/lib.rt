// Rows: runs of one form, each a fixed number of bytes behind the one before. Where they are narrow, 64 of them are gathered into strips.
// A run, its gap and a number stay apart: most functions go on with another run, and two with another number.
#![tactic(auto)]

ghost use Rattle.std.specs.Prelude.{◌≡◌, ◌+◌, ◌*◌, ◌-◌, ◌^◌, ◌<◌, ◌≤◌, length};
ghost use Rattle.span.specs.Decision.{Decides};
ghost use Rattle.line.specs.Run.{Inside};
ghost use Rattle.rows.specs.Rows.{behind, AllRows};
ghost use Rattle.rows.specs.Inner.{Within, Gathered, LanesRight, RowsRight};

use line::Run;
use std::array;
use strip::Syndromes;

// Whether every line of `count` runs is a codeword: of `run`, and of each next one, `gap` bytes behind the one before.
pub fn codewords(s: &[u8], reduction: u8, run: Run, gap: usize, count: usize) -> bool
    ensures { Decides (AllRows reduction run gap count s.now) result }
{
    if count == 0 {
        return true;
    }
    if !reaches(s.len(), run.first, gap, count - 1) {
        return false;
    }
    if run.width < 8 && 64 <= count {
        gathered(s, reduction, run, gap, count)
    } else {
        one_by_one(s, reduction, run, gap, count)
    }
}

// Whether q gaps behind `first` is not past n bytes. The quotient avoids a product that could wrap.
fn reaches(n: usize, first: usize, gap: usize, q: usize) -> bool
    ensures { Decides (first + gap * q ≤ n) result }
{
    first <= n && (q == 0 || gap <= (n - first) / q)
}

fn one_by_one(s: &[u8], reduction: u8, run: Run, gap: usize, count: usize) -> bool
    requires { (0 < count) × (run.first + gap * (count - 1) ≤ length s.now) }
    ensures { Decides (AllRows reduction run gap count s.now) result }
{
    (0..count).all(|q| line::codewords(s, reduction, moved(run, gap * q)))
}

// The last row is looked at by itself: where it lies inside, all rows do.
fn gathered(s: &[u8], reduction: u8, run: Run, gap: usize, count: usize) -> bool
    requires { (64 ≤ count) × (run.first + gap * (count - 1) ≤ length s.now) }
    ensures { Decides (AllRows reduction run gap count s.now) result }
{
    line::codewords(s, reduction, moved(run, gap * (count - 1)))
        && by_strips(s, reduction, run, gap, count)
}

// 64 rows at a time; the last 64 may reach back over rows that were looked at already.
fn by_strips(s: &[u8], reduction: u8, run: Run, gap: usize, count: usize) -> bool
    requires { (64 ≤ count) × Inside (behind run (gap * (count - 1))) (length s.now) }
    ensures { Decides (RowsRight reduction run gap 0 count s.now) result }
{
    let last = count - 64;
    // By `all` the proof did not close: `returns` needs what a turn with two products answers.
    for from in (0..last).step_by(64) {
        if !strip_of_rows(s, reduction, moved(run, gap * from), gap) {
            return false;
        }
    }
    strip_of_rows(s, reduction, moved(run, gap * last), gap)
}

// The 64 rows from a run on, byte after byte of their width.
fn strip_of_rows(s: &[u8], reduction: u8, run: Run, gap: usize) -> bool
    requires { Inside (behind run (gap * 63)) (length s.now) }
    ensures { Decides (RowsRight reduction run gap 0 64 s.now) result }
{
    (0..run.width).all(|byte| lanes(s, reduction, moved(run, byte), gap))
}

// Whether 64 lines are codewords, the first of a run and those `gap` bytes further each: their syndromes stay in registers. Why this loop stands here and
// in `line` is said at `strip::Syndromes::step`.
fn lanes(s: &[u8], reduction: u8, run: Run, gap: usize) -> bool
    requires { Within run gap (length s.now) }
    ensures { Decides (LanesRight reduction run gap s.now) result }
{
    let mut sums = Syndromes::zeros();
    for i in (0..run.len).rev() {
        sums.step(reduction, gather(s, run.first + run.stride * i, gap));
    }
    sums.all_zero(64)
}

// The 64 bytes from `at` on, `gap` bytes from one to the next.
fn gather(s: &[u8], at: usize, gap: usize) -> [u8; 64]
    requires { at + gap * 63 < length s.now }
    ensures { Gathered s.now at gap result }
{
    array::from_fn(|t| s[at + gap * t])
}

// The run that begins so many bytes behind another. `line` narrows a run as it moves it, in a function of its own.
fn moved(run: Run, bytes: usize) -> Run
    requires { run.first + bytes < 2 ^ 64 }
    ensures { result ≡ behind run bytes }
{
    Run {
        first: run.first + bytes,
        ..run
    }
}
