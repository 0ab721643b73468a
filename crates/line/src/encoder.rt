// Lines whose data places stand elsewhere, encoded: each place is copied and summed in the same turn, so that memory and arithmetic work
// side by side. The two slices and their runs stay apart: strips go on with parts of both runs, and one slice of the two is written.
ghost use Rattle.std.specs.Prelude.{◌≡◌, ◌+◌, ◌-◌, ◌≤◌, length};
ghost use Rattle.line.specs.Run.{Inside, Feeds, Encoded, erasures_at};
ghost use Rattle.line.specs.Inner.Block.{part, Syndromes};
ghost use Rattle.line.specs.Inner.Encoder.{DataPlaced};

use crate::{Erasures, Run, block, strips};

// Encodes every line of the run `to`. Strips pay where few places are read side by side; else the places are copied first.
pub(crate) fn encode_blocks(
    data: &[u8],
    s: &mut [u8],
    reduction: u8,
    from: Run,
    to: Run,
    e: Erasures,
)
    requires { (Inside to (length s.old)) × (Feeds from to (length «data».now)) × (e ≡ erasures_at reduction (to.len - 2) (to.len - 1)) }
    ensures { Encoded reduction from to «data».now s.old s.new }
{
    if to.len <= 16 && 64 <= to.width {
        encode_strips(data, s, reduction, from, to, e);
    } else {
        place(data, s, from, to);
        block::solve_blocks(s, reduction, to, e);
    }
}

// Strip by strip; the last one may begin before the lines that are done, and encodes them once more.
fn encode_strips(data: &[u8], s: &mut [u8], reduction: u8, from: Run, to: Run, e: Erasures)
    requires { (Inside to (length s.old)) × (Feeds from to (length «data».now)) × (e ≡ erasures_at reduction (to.len - 2) (to.len - 1)) × (64 ≤ to.width) }
    ensures { Encoded reduction from to «data».now s.old s.new }
{
    let last = to.width - 64;
    for done in (0..last).step_by(64) {
        encode_strip(data, s, reduction, from, to, done, e);
    }
    encode_strip(data, s, reduction, from, to, last, e);
}

// The 64 lines from line a on.
fn encode_strip(data: &[u8], s: &mut [u8], reduction: u8, from: Run, to: Run, a: usize, e: Erasures)
    requires { (Inside to (length s.old)) × (Feeds from to (length «data».now)) × (e ≡ erasures_at reduction (to.len - 2) (to.len - 1)) × (a + 64 ≤ to.width) }
    ensures { Encoded reduction (part from a 64) (part to a 64) «data».now s.old s.new }
{
    let source = from.lines_from(a, 64);
    let target = to.lines_from(a, 64);
    let sums = place_strip(data, s, reduction, source, target);
    strips::combine(s, sums, reduction, target, e);
}

// Copies the data places of 64 lines, and sums both syndromes of what is copied. Why this loop stands here and in `strips` is said at
// `strip::Syndromes::step`.
fn place_strip(data: &[u8], s: &mut [u8], reduction: u8, from: Run, to: Run) -> strip::Syndromes<64>
    requires { (Inside to (length s.old)) × (Feeds from to (length «data».now)) × (to.width ≡ 64) }
    ensures { DataPlaced from to «data».now s.old s.new × Syndromes reduction from «data».now result.first result.second }
{
    let mut sums = strip::Syndromes::zeros();
    for i in (0..from.len).rev() {
        let c = span::copy_strip(
            data,
            s,
            from.first + from.stride * i,
            to.first + to.stride * i,
        );
        sums.step(reduction, c);
    }
    sums
}

// Copies the data places of every line.
fn place(data: &[u8], s: &mut [u8], from: Run, to: Run)
    requires { (Inside to (length s.old)) × (Feeds from to (length «data».now)) }
    ensures { DataPlaced from to «data».now s.old s.new }
{
    for i in 0..from.len {
        span::copy(
            data,
            s,
            from.first + from.stride * i,
            to.first + to.stride * i,
            to.width,
        );
    }
}
