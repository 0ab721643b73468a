// A run of neighbouring lines, block by block: strips of 64 lines, wide blocks where the run is wide and its lines are long, a narrow block where
// it has fewer than 64 lines.
ghost use Rattle.std.specs.Prelude.{◌≡◌, ℕ, ◌+◌, ◌-◌, ◌*◌, ◌^◌, ◌<◌, ◌≤◌, length};
ghost use Rattle.std.specs.Iterator.{at_most};
ghost use Rattle.line.specs.Run.{Inside, Erasable, ErasuresWritten, Codewords};
ghost use Rattle.span.specs.Decision.{Decides};
ghost use Rattle.span.specs.Span.{SetTo};
ghost use Rattle.line.specs.Inner.Block.{Block, ToEnd, Combining, part, places, IsBlock};
ghost use Rattle.line.specs.Inner.Blocks.{Widened, cuts};

use crate::{Erasures, Run, narrow, strips, wide};

impl Run {
    // Its w lines from line a on.
    pub(crate) fn lines_from(self, a: usize, w: usize) -> Run
        requires { self.first + a < 2 ^ 64 }
        ensures { result ≡ part self a w }
    {
        Run {
            first: self.first + a,
            width: w,
            ..self
        }
    }

    // The first n places of its lines.
    fn first_places(self, n: usize) -> Run
        ensures { result ≡ places self n }
    {
        Run { len: n, ..self }
    }
}

// The blocks of a run one after the other, once the first `done` lines are done.
#[derive(Clone, Copy)]
pub(crate) struct Blocks {
    run: Run,
    done: usize,
}

impl Blocks {
    pub(crate) fn of(run: Run) -> Blocks
        ensures { (result.run ≡ run) × (result.done ≡ 0) }
    {
        Blocks { run, done: 0 }
    }
}

impl Iterator for Blocks {
    type Item = Run;

    ghost can_next = { λ s. s.run.first + s.run.width < 2 ^ 64 };

    ghost next_gives = { cuts };

    ghost remaining = { λ s. at_most (s.run.width - s.done) };

    fn next(&mut self) -> Option<Run> {
        let Blocks { run, done } = *self;
        if run.width <= done {
            return None;
        }
        let b = block_after(run, done);
        self.done += b.width;
        Some(b)
    }
}

// The block that follows the lines that are done. Where many long lines lie side by side, 4096 are taken together, so that memory is
// read in long pieces; else 64, whose syndromes stay in registers.
fn block_after(run: Run, done: usize) -> Run
    requires { (done < run.width) × (run.first + run.width < 2 ^ 64) }
    ensures { Block run done result }
{
    let most: usize = if 16 < run.len && 4096 <= run.width {
        4096
    } else {
        64
    };
    run.lines_from(done, most.min(run.width - done))
}

// Writes both erasures of every line of the run.
pub(crate) fn solve_blocks(s: &mut [u8], reduction: u8, run: Run, e: Erasures)
    requires { Erasable run e (length s.old) }
    ensures { ErasuresWritten reduction run e s.old s.new }
{
    for b in Blocks::of(run) {
        solve_block(s, reduction, widened(run, b), e);
    }
}

// Where every place from j on is erased, the places before j alone count: no byte at an erasure is read or cleared.
fn solve_block(s: &mut [u8], reduction: u8, run: Run, e: Erasures)
    requires { Erasable run e (length s.old) × IsBlock run }
    ensures { ErasuresWritten reduction run e s.old s.new }
{
    if erased_to_end(run, e) {
        combine(s, reduction, run.first_places(e.j), run, e);
        return;
    }
    clear(s, run, e.j);
    clear(s, run, e.k);
    combine(s, reduction, run, run, e);
}

// Whether every place from j on is erased, and j is not the first place.
fn erased_to_end(run: Run, e: Erasures) -> bool
    requires { (run.len ≤ 255) × (e.j ≤ e.k) × (e.k < run.len) }
    ensures { Decides (ToEnd run e) result }
{
    0 < e.j && run.len <= e.k + 1 && run.len <= e.j + 2
}

// The kernel for a block's width. It is picked as in `codeword_block`: one switch for both would take three closures a call.
fn combine(s: &mut [u8], reduction: u8, read: Run, run: Run, e: Erasures)
    requires { (Inside read (length s.old)) × (read.width ≡ run.width) × Erasable run e (length s.old) × IsBlock run }
    ensures { Combining reduction read run e s.old s.new }
{
    if run.width == 64 {
        strips::solve(s, reduction, read, run, e);
    } else if run.width < 64 {
        narrow::solve(s, reduction, read, run, e);
    } else {
        wide::solve::<4096>(s, reduction, read, run, e);
    }
}

// Whether every line of the run is a codeword.
pub(crate) fn codeword_blocks(s: &[u8], reduction: u8, run: Run) -> bool
    requires { Inside run (length s.now) }
    ensures { Decides (Codewords reduction run s.now) result }
{
    Blocks::of(run).all(|b| codeword_block(s, reduction, widened(run, b)))
}

pub(crate) fn codeword_block(s: &[u8], reduction: u8, run: Run) -> bool
    requires { (Inside run (length s.now)) × IsBlock run }
    ensures { Decides (Codewords reduction run s.now) result }
{
    if run.width == 64 {
        strips::codewords(s, reduction, run)
    } else if run.width < 64 {
        narrow::codewords(s, reduction, run)
    } else {
        wide::codewords::<4096>(s, reduction, run)
    }
}

// A block that has fewer than 64 lines is the last one. Where the run has as many, its last 64 lines take the place of the block's: they reach back
// into lines that are done, which stay as they are, so that few blocks have another width than the fast ones.
fn widened(run: Run, b: Run) -> Run
    requires { run.first + run.width < 2 ^ 64 }
    ensures { (a : ℕ) → Block run a b → Widened run a b result }
{
    if b.width < 64 && 64 <= run.width {
        run.lines_from(run.width - 64, 64)
    } else {
        b
    }
}

// Makes place i of each line of the run 00h.
fn clear(s: &mut [u8], run: Run, i: usize)
    requires { (Inside run (length s.old)) × (i < run.len) }
    ensures { SetTo s.old (run.first + run.stride * i) run.width 0 s.new }
{
    span::set(s, run.first + run.stride * i, run.width, 0);
}
