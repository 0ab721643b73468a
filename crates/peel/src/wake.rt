// The marks of peeling: a byte for each group of eight lines of an axis, which says which of them are awake, that is which may have changed since
// their last visit: a stretch of the group, from one line to another. An axis has at most 65,025 lines, so that 8,192 marks an axis are enough.
// Bytes, and no type of two places: the memory is fixed, and 32 marks are tested at once.
ghost use Rattle.std.specs.Prelude.{◌≡◌, true, ℕ, ◌+◌, ◌*◌, ◌/◌, ◌%◌, ◌≤◌, ◌<◌, get_or, set, MatchOption};
ghost use Rattle.shape.specs.Shapes.{Valid, IsAxis, cells, lines_of};
ghost use Rattle.peel.specs.Inner.Wake.{mark_at, stretched, Woken, AllQuiet};

use shape::Shape;

// The mark of a group whose lines are all quiet.
pub(crate) const QUIET: u8 = 71;

// How many groups of eight lines an axis has, the last one perhaps shorter.
pub(crate) fn groups(sh: Shape, axis: usize) -> usize
    requires { Valid sh × IsAxis axis }
    ensures { (lines_of sh axis ≤ result * 8) × (result ≤ 8192) }
{
    shape::axis_of(sh, axis).map_or(0, |a| a.lines.div_ceil(8))
}

// Where the mark of a group stands: the axes have their marks one behind the other.
pub(crate) fn mark_at(axis: usize, g: usize) -> usize
    requires { IsAxis axis × (g < 8192) }
    ensures { result ≡ mark_at axis g }
{
    (axis - 1) * 8192 + g
}

// The first group from `from` on that is not quiet, below `groups`.
pub(crate) fn next_awake(
    marks: &[u8; 24576],
    axis: usize,
    from: usize,
    groups: usize,
) -> Option<usize>
    requires { IsAxis axis × (from ≤ groups) × (groups ≤ 8192) }
    ensures { MatchOption result (AllQuiet marks.now axis from groups) (λ g. (from ≤ g) × (g < groups) × AllQuiet marks.now axis from g) }
{
    (past_quiet(marks, axis, from, groups)..groups).find(|g| marks[mark_at(axis, *g)] != QUIET)
}

// Where to look on from `from`: 32 groups at a time are passed over, since in a sweep that fills little nearly all are quiet. No `find`: std has laws of one
// over a range, and none of one over a range by steps.
fn past_quiet(marks: &[u8; 24576], axis: usize, from: usize, groups: usize) -> usize
    requires { IsAxis axis × (from ≤ groups) × (groups ≤ 8192) }
    ensures { (from ≤ result) × (result ≤ groups) × AllQuiet marks.now axis from result }
{
    for g in (from..groups).step_by(32) {
        if groups < g + 32 || !all_quiet(marks, mark_at(axis, g)) {
            return g;
        }
    }
    groups
}

// Whether the 32 marks from a place on are those of quiet groups. The tests are joined by `&`: without an early exit they are made at once.
fn all_quiet(marks: &[u8; 24576], at: usize) -> bool
    requires { at + 32 ≤ 24576 }
    ensures { result ≡ true → (i : ℕ) → i < 32 → get_or marks.now (at + i) 0 ≡ 71 }
{
    marks[at..at + 32]
        .iter()
        .fold(true, |so, mark| so & (*mark == QUIET))
}

// Wakes the three lines through a cell.
pub(crate) fn wake(marks: &mut [u8; 24576], sh: Shape, n: usize)
    requires { Valid sh × (n < cells sh) }
    ensures { Woken sh n marks.old marks.new }
{
    let l1 = sh.l1;
    let plane = l1 * sh.l2;
    wake_line(marks, n / l1);
    wake_line(marks, 65536 + (n / plane * l1 + n % l1));
    wake_line(marks, 131072 + n % plane);
}

// Wakes a line, by its number among the lines of all axes, 65,536 numbers an axis.
fn wake_line(marks: &mut [u8; 24576], m: usize)
    requires { m < 196608 }
    ensures { marks.new ≡ set marks.old (m / 8) (stretched (get_or marks.old (m / 8) 0) (m % 8)) }
{
    let group = m / 8;
    // `as`: there is no From of usize for u8.
    marks[group] = stretched(marks[group], (m % 8) as u8);
}

// The mark of a group in which line k, too, is awake, and with it the lines between it and those that were.
fn stretched(mark: u8, k: u8) -> u8
    requires { k < 8 }
    ensures { result ≡ stretched mark k }
{
    (mark / 8).min(k) * 8 + (mark % 8).min(7 - k)
}
