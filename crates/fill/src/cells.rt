// Flags and cells. Within a call a cell that was filled has the flag MARKED, above every flag of a caller. Cube and flags are lent in turn as shared and
// as mutable, so no struct holds both for these calls, as `Lent` does for the last check.
ghost use Rattle.std.specs.Prelude.{◌≡◌, length};
ghost use Rattle.stopping.specs.Stopping.{number};
ghost use Rattle.shape.specs.Flags.{missing};
ghost use Rattle.peel.specs.Peel.{Sized};
ghost use Rattle.fill.specs.Fill.{Cleared};
ghost use Rattle.shape.specs.Inner.Marks.{is_marked, Remarked};

use shape::Shape;
use shape::flags::{KNOWN, MARKED, MISSING};

// Clears every missing cell: right for each outcome that is left.
pub(crate) fn clear_missing(cube: &mut [u8], flags: &[u8], sh: Shape)
    requires { Sized sh cube.old flags.now }
    ensures { Cleared sh cube.old (missing flags.now) cube.new }
{
    let w = sh.w;
    for (n, flag) in flags.iter().enumerate() {
        if *flag == MISSING {
            span::set(cube, n * w, w, 0);
        }
    }
}

// After a filling: filled cells are known, and the answer is how many are left. In one turn, and no `filter` with `count`, whose branch on each flag
// took half as long again where a third of them is 1.
pub(crate) fn settle(flags: &mut [u8]) -> usize
    ensures remarked { Remarked 0 flags.old flags.new }
    ensures value { result ≡ number (missing flags.new) (length flags.old) }
{
    let mut left = 0;
    for flag in flags.iter_mut() {
        if *flag == MARKED {
            *flag = KNOWN;
        }
        if *flag == MISSING {
            left += 1;
        }
    }
    left
}

// After a contradiction: filled cells are missing again, and cleared. Those that are left were cleared before.
pub(crate) fn restore(cube: &mut [u8], flags: &mut [u8], sh: Shape)
    requires { Sized sh cube.old flags.old }
    ensures cleared { Cleared sh cube.old (is_marked flags.old) cube.new }
    ensures remarked { Remarked 1 flags.old flags.new }
{
    let w = sh.w;
    for (n, mark) in flags.iter_mut().enumerate() {
        if *mark == MARKED {
            *mark = MISSING;
            span::set(cube, n * w, w, 0);
        }
    }
}
