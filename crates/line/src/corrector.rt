// Single-error correction of blocks of neighbouring lines, from their syndromes.
ghost use Rattle.std.specs.Prelude.{◌≡◌, ◌<◌, length};
ghost use Rattle.line.specs.Line.{syndrome0, syndrome1};
ghost use Rattle.line.specs.Run.{Inside, Corrected, line_at};
ghost use Rattle.line.specs.Inner.Wide.{Room};
ghost use Rattle.line.specs.Inner.Block.{part, IsBlock};

use crate::block::Blocks;
use crate::{Run, block, wide};

// Corrects every line of the run, block by block. No block is widened: each line is corrected once.
pub(crate) fn correct_blocks(s: &mut [u8], reduction: u8, run: Run)
    requires { Inside run (length s.old) }
    ensures { Corrected reduction run s.old s.new }
{
    for b in Blocks::of(run) {
        correct_block(s, reduction, b);
    }
}

// Most blocks hold codewords alone, and need no more than to be looked at. The room is picked by the width, as the kernel is in `block`.
fn correct_block(s: &mut [u8], reduction: u8, run: Run)
    requires { (Inside run (length s.old)) × IsBlock run }
    ensures { Corrected reduction run s.old s.new }
{
    if block::codeword_block(s, reduction, run) {
        return;
    }
    if run.width <= 64 {
        correct_lines::<64>(s, reduction, run);
    } else {
        correct_lines::<4096>(s, reduction, run);
    }
}

// One line a turn, with room for the syndromes of N lines. By the line's number, which `correct_line` is told.
fn correct_lines<const N: usize>(s: &mut [u8], reduction: u8, run: Run)
    requires { (Inside run (length s.old)) × Room run N }
    ensures { Corrected reduction run s.old s.new }
{
    let mut sums: strip::Syndromes<N> = strip::Syndromes::zeros();
    wide::syndromes(s, &mut sums, reduction, run);
    for t in 0..run.width {
        correct_line(s, reduction, run, t, sums.first[t], sums.second[t]);
    }
}

fn correct_line(s: &mut [u8], reduction: u8, run: Run, t: usize, v0: u8, v1: u8)
    requires { (Inside run (length s.old)) × (t < run.width) × (v0 ≡ syndrome0 (line_at s.old run t) run.len) × (v1 ≡ syndrome1 reduction (line_at s.old run t) run.len) }
    ensures { Corrected reduction (part run t 1) s.old s.new }
{
    let Some(j) = solver::error_place(reduction, v0, v1, run.len) else {
        return;
    };
    let p = run.first + run.stride * j + t;
    s[p] = field::add(s[p], v0);
}
