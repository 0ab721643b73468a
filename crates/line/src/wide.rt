// Blocks of up to 4096 neighbouring lines: each place is read as one long piece of memory, four places a pass. The kernel has room for N
// lines, so that it serves narrow blocks as well.
// Lines are gone through by their number: std does not say what a slice holds once an adapter of `iter_mut` has written it.
ghost use Rattle.std.specs.Prelude.{◌+◌, ◌*◌, ◌/◌, ◌<◌, min, length};
ghost use Rattle.line.specs.Run.{Inside, Erasable, Codewords};
ghost use Rattle.span.specs.Decision.{Decides};
ghost use Rattle.line.specs.Inner.Wide.{Room, Empty, Tails, One, Four};
ghost use Rattle.line.specs.Inner.Block.{Syndromes, Combined, Combining};

use crate::{Erasures, Run};

// Writes both erasures of each line of `run` from the syndromes of the lines of `read`.
pub(crate) fn solve<const N: usize>(s: &mut [u8], reduction: u8, read: Run, run: Run, e: Erasures)
    requires { (Inside read (length s.old)) × Room read N × Erasable run e (length s.old) × Room run N }
    ensures { Combining reduction read run e s.old s.new }
{
    let mut sums: strip::Syndromes<N> = strip::Syndromes::zeros();
    syndromes(s, &mut sums, reduction, read);
    combine(s, &sums, reduction, run, e);
}

// Whether each line is a codeword.
pub(crate) fn codewords<const N: usize>(s: &[u8], reduction: u8, run: Run) -> bool
    requires { (Inside run (length s.now)) × Room run N }
    ensures { Decides (Codewords reduction run s.now) result }
{
    let mut sums: strip::Syndromes<N> = strip::Syndromes::zeros();
    syndromes(s, &mut sums, reduction, run);
    sums.all_zero(run.width)
}

// Both syndromes of each line of a block, by Horner's rule from the far end; the sums come in as zeros.
pub(crate) fn syndromes<const N: usize>(
    s: &[u8],
    sums: &mut strip::Syndromes<N>,
    reduction: u8,
    run: Run,
)
    requires { (Inside run (length s.now)) × Empty run.width sums.old.first × Empty run.width sums.old.second × Room run N }
    ensures { Syndromes reduction run s.now sums.new.first sums.new.second }
{
    ones(s, sums, reduction, run);
    fours(s, sums, reduction, run);
}

// The places past the last multiple of four, of which there are at most three.
fn ones<const N: usize>(s: &[u8], sums: &mut strip::Syndromes<N>, reduction: u8, run: Run)
    requires { (Inside run (length s.now)) × (Tails reduction run run.len s.now sums.old.first sums.old.second) × Room run N }
    ensures { Tails reduction run (run.len / 4 * 4) s.now sums.new.first sums.new.second }
{
    let left = run.len / 4 * 4;
    // By `for i in (left..run.len).rev()` 5000 lines of 19 places took 2.9 times as many instructions: its fixed step costs `one` its vector form.
    one_below(s, sums, reduction, run, left + 2);
    one_below(s, sums, reduction, run, left + 1);
    one_below(s, sums, reduction, run, left);
}

// A step by a place that the lines may be too short for.
fn one_below<const N: usize>(
    s: &[u8],
    sums: &mut strip::Syndromes<N>,
    reduction: u8,
    run: Run,
    left: usize,
)
    requires { (Inside run (length s.now)) × (Tails reduction run (min (left + 1) run.len) s.now sums.old.first sums.old.second) × Room run N }
    ensures { Tails reduction run (min left run.len) s.now sums.new.first sums.new.second }
{
    if left < run.len {
        one(s, sums, reduction, run, left);
    }
}

// Four places a pass, so that the sums are read and written once for four. From a multiple of four (left - 1) / 4 * 4 is left - 4;
// written so, the compiler does not see a fixed step downwards, for which it would give up the vector form of the inner loop.
fn fours<const N: usize>(s: &[u8], sums: &mut strip::Syndromes<N>, reduction: u8, run: Run)
    requires { (Inside run (length s.now)) × (Tails reduction run (run.len / 4 * 4) s.now sums.old.first sums.old.second) × Room run N }
    ensures { Tails reduction run 0 s.now sums.new.first sums.new.second }
{
    let mut left = run.len / 4 * 4;
    // A range gives it a fixed step: `for k in (0..run.len / 4).rev()` took 20 times as long.
    while 0 < left {
        left = (left - 1) / 4 * 4;
        four(s, sums, reduction, run, left);
    }
}

fn four<const N: usize>(
    s: &[u8],
    sums: &mut strip::Syndromes<N>,
    reduction: u8,
    run: Run,
    left: usize,
)
    requires { (Inside run (length s.now)) × (left + 3 < run.len) × Room run N }
    ensures { Four reduction run left s.now sums.old.first sums.old.second sums.new.first sums.new.second }
{
    let at = run.first + run.stride * left;
    let at1 = at + run.stride;
    let at2 = at1 + run.stride;
    let at3 = at2 + run.stride;
    for t in 0..run.width {
        let c0 = s[at + t];
        let c1 = s[at1 + t];
        let c2 = s[at2 + t];
        let c3 = s[at3 + t];
        sums.first[t] = sums.first[t] ^ c3 ^ c2 ^ c1 ^ c0;
        let h3 = field::xtime(reduction, sums.second[t]) ^ c3;
        let h2 = field::xtime(reduction, h3) ^ c2;
        let h1 = field::xtime(reduction, h2) ^ c1;
        sums.second[t] = field::xtime(reduction, h1) ^ c0;
    }
}

// A step of `strip::Syndromes<64>` takes its bytes by value; this one reads as many as the run has lines from the slice.
fn one<const N: usize>(
    s: &[u8],
    sums: &mut strip::Syndromes<N>,
    reduction: u8,
    run: Run,
    left: usize,
)
    requires { (Inside run (length s.now)) × (left < run.len) × Room run N }
    ensures { One reduction run left s.now sums.old.first sums.old.second sums.new.first sums.new.second }
{
    let at = run.first + run.stride * left;
    for t in 0..run.width {
        let c = s[at + t];
        sums.first[t] ^= c;
        sums.second[t] = field::xtime(reduction, sums.second[t]) ^ c;
    }
}

// Writes the bytes at both erasures of each line of a block; the later one last, so that it stands where both are one. Its twins of `strips` and `narrow`
// hold both bytes of 64 lines; here no room for those of 4096 is taken.
pub(crate) fn combine<const N: usize>(
    s: &mut [u8],
    sums: &strip::Syndromes<N>,
    reduction: u8,
    run: Run,
    e: Erasures,
)
    requires { Erasable run e (length s.old) × Room run N }
    ensures { Combined reduction run e sums.now.first sums.now.second s.old s.new }
{
    let at_j = run.first + run.stride * e.j;
    let at_k = run.first + run.stride * e.k;
    for t in 0..run.width {
        let x = sums.first[t];
        let y = field::dot(reduction, x, e.b, sums.second[t], e.d);
        s[at_j + t] = x ^ y;
        s[at_k + t] = y;
    }
}
