// Strips of 64 neighbouring lines: the syndromes stay in registers from the first place to the last.
ghost use Rattle.std.specs.Prelude.{◌≡◌, ◌+◌, ◌<◌, ◌≤◌, length};
ghost use Rattle.span.specs.Span.{Copied, Piece};
ghost use Rattle.line.specs.Run.{Inside, Erasable, Codewords};
ghost use Rattle.span.specs.Decision.{Decides};
ghost use Rattle.line.specs.Inner.Block.{Syndromes, Combined, Combining, Roomy};

use crate::{Erasures, Run};
use std::array;

// Writes both erasures of each line of `run` from the syndromes of the lines of `read`.
pub(crate) fn solve(s: &mut [u8], reduction: u8, read: Run, run: Run, e: Erasures)
    requires { (Inside read (length s.old)) × (read.width ≡ 64) × Erasable run e (length s.old) × (run.width ≡ 64) }
    ensures { Combining reduction read run e s.old s.new }
{
    let sums = syndromes(s, reduction, read);
    combine(s, sums, reduction, run, e);
}

// Whether each line is a codeword.
pub(crate) fn codewords(s: &[u8], reduction: u8, run: Run) -> bool
    requires { (Inside run (length s.now)) × (run.width ≡ 64) }
    ensures { Decides (Codewords reduction run s.now) result }
{
    syndromes(s, reduction, run).all_zero(64)
}

// Both syndromes of each line, by Horner's rule from the far end. Where the run has fewer than 64 lines, those behind them get some value. Why this loop
// stands here, in `encoder` and in `rows`, is said at `strip::Syndromes::step`.
pub(crate) fn syndromes(s: &[u8], reduction: u8, run: Run) -> strip::Syndromes<64>
    requires { Roomy run (length s.now) × (run.width ≤ 64) }
    ensures { Syndromes reduction run s.now result.first result.second }
{
    let mut sums = strip::Syndromes::zeros();
    for i in (0..run.len).rev() {
        sums.step(reduction, load(s, run.first + run.stride * i));
    }
    sums
}

// The 64 bytes from `at` on. Not by `copy_from_slice`, a call that leaves the registers: a strip of lines took twice as long.
fn load(s: &[u8], at: usize) -> [u8; 64]
    requires { at + 64 ≤ length s.now }
    ensures { Piece s.now at 64 result }
{
    array::from_fn(|t| s[at + t])
}

// Writes 64 bytes from `at` on, in the same way.
fn store(s: &mut [u8], at: usize, c: [u8; 64])
    requires { at + 64 ≤ length s.old }
    ensures { Copied c 0 s.old at 64 s.new }
{
    for t in 0..64 {
        s[at + t] = c[t];
    }
}

// Writes the bytes at both erasures of each line; the later one last, so that it stands where both are one. By its twin of `narrow`, whose copies are
// calls, `solve` takes six times as many instructions.
pub(crate) fn combine(
    s: &mut [u8],
    sums: strip::Syndromes<64>,
    reduction: u8,
    run: Run,
    e: Erasures,
)
    requires { Erasable run e (length s.old) × (run.width ≡ 64) }
    ensures { Combined reduction run e sums.first sums.second s.old s.new }
{
    let y = sums.products(reduction, e.b, e.d);
    store(s, run.first + run.stride * e.j, strip::sums(sums.first, y));
    store(s, run.first + run.stride * e.k, y);
}
