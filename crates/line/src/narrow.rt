// Narrow blocks, of fewer than 64 neighbouring lines: a strip that reads 64 bytes a place where the slice has them, so that no place ends in
// single bytes, or else a block of little room.
ghost use Rattle.std.specs.Prelude.{◌≡◌, true, ◌<◌, ◌≤◌, length};
ghost use Rattle.span.specs.Decision.{Decides};
ghost use Rattle.line.specs.Run.{Inside, Erasable, Codewords};
ghost use Rattle.line.specs.Inner.Block.{Roomy, Combined, Combining};

use crate::{Erasures, Run, strips, wide};

// Writes both erasures of each line of `run` from the syndromes of the lines of `read`.
pub(crate) fn solve(s: &mut [u8], reduction: u8, read: Run, run: Run, e: Erasures)
    requires { (Inside read (length s.old)) × (read.width ≡ run.width) × Erasable run e (length s.old) × (run.width < 64) }
    ensures { Combining reduction read run e s.old s.new }
{
    if roomy(s.len(), read) {
        let sums = strips::syndromes(s, reduction, read);
        combine(s, sums, reduction, run, e);
    } else {
        wide::solve::<64>(s, reduction, read, run, e);
    }
}

// Whether each line is a codeword.
pub(crate) fn codewords(s: &[u8], reduction: u8, run: Run) -> bool
    requires { (Inside run (length s.now)) × (run.width < 64) }
    ensures { Decides (Codewords reduction run s.now) result }
{
    if roomy(s.len(), run) {
        strips::syndromes(s, reduction, run).all_zero(run.width)
    } else {
        wide::codewords::<64>(s, reduction, run)
    }
}

// Whether a strip pays: from six lines on, where all 64 bytes of the last place lie inside.
fn roomy(n: usize, run: Run) -> bool
    requires { Inside run n }
    ensures { result ≡ true → Roomy run n }
{
    let last = run.first + run.stride * (run.len - 1);
    6 <= run.width && 64 <= n - last
}

// Writes the bytes at both erasures of the run's lines, which are the first of a strip; the later one last, so that it stands where both are one.
fn combine(s: &mut [u8], sums: strip::Syndromes<64>, reduction: u8, run: Run, e: Erasures)
    requires { Erasable run e (length s.old) × (run.width ≤ 64) }
    ensures { Combined reduction run e sums.first sums.second s.old s.new }
{
    let y = sums.products(reduction, e.b, e.d);
    let x = strip::sums(sums.first, y);
    span::copy(&x, s, 0, run.first + run.stride * e.j, run.width);
    span::copy(&y, s, 0, run.first + run.stride * e.k, run.width);
}
