// Reading a plan: room for its entries, and their bytes copied to the lists.
ghost use Rattle.std.specs.Prelude.{◌≡◌, ◌+◌, ◌*◌, ◌≤◌, length};
ghost use Rattle.span.specs.Decision.{Decides};
ghost use Rattle.plan_form.specs.Form.{plan_end, section};
ghost use Rattle.plan.specs.Calls.{begun};

use plan_form::PlanCounts;

// Whether lists of so many bytes have room for the entries; a test and no Result, as in `writing`. The counts of a plan that was read are far too small
// for these products to wrap.
#[tactic(auto, unfolding(plan_form::specs::Form::plan_end))]
pub(crate) fn room(n: PlanCounts, closures: usize, fibres: usize, splices: usize) -> bool
    requires { plan_end n ≤ 18446744073709551615 }
    ensures { Decides ((2 * n.closures ≤ closures) × (4 * n.fibres ≤ fibres) × (8 * n.splices ≤ splices)) result }
{
    2 * n.closures <= closures && 4 * n.fibres <= fibres && 8 * n.splices <= splices
}

// Copies the entries of each section to the start of its list.
#[tactic(auto, unfolding(plan_form::specs::Form::plan_end))]
pub(crate) fn show(
    file: &[u8],
    closures: &mut [u8],
    fibres: &mut [u8],
    splices: &mut [u8],
    n: PlanCounts,
)
    requires { (plan_end n ≡ length file.now) × (2 * n.closures ≤ length closures.old) × (4 * n.fibres ≤ length fibres.old) × (8 * n.splices ≤ length splices.old) }
    ensures { (closures.new ≡ begun (section file.now 4 (2 * n.closures)) closures.old)
        × (fibres.new ≡ begun (section file.now (8 + 2 * n.closures) (4 * n.fibres)) fibres.old)
        × (splices.new ≡ begun (section file.now (12 + 2 * n.closures + 4 * n.fibres) (8 * n.splices)) splices.old) }
{
    begin(file, closures, 4, 2 * n.closures);
    begin(file, fibres, 8 + 2 * n.closures, 4 * n.fibres);
    begin(
        file,
        splices,
        12 + 2 * n.closures + 4 * n.fibres,
        8 * n.splices,
    );
}

// The n bytes of the file from a place on begin the list.
fn begin(file: &[u8], list: &mut [u8], from: usize, n: usize)
    requires { (from + n ≤ length file.now) × (n ≤ length list.old) }
    ensures { list.new ≡ begun (section file.now from n) list.old }
{
    span::copy(file, list, from, 0, n);
}
