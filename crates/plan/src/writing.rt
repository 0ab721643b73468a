// Writing a plan: the lengths of its lists, and its three sections, each after its count.
ghost use Rattle.std.specs.Prelude.{◌≡◌, ◌++◌, ◌+◌, ◌%◌, ◌≤◌, length};
ghost use Rattle.span.specs.Decision.{Decides};
ghost use Rattle.cursor.specs.Steps.{word_bytes};
ghost use Rattle.pack_writer.specs.Writing.{Laid};
ghost use Rattle.plan_form.specs.Form.{lists, plan_bytes};

use cursor::{Cursor, count_bytes};
use plan_form::PlanLists;

// Whether the lists have whole entries, and an output of so many bytes room for the file and no more. Differences avoid a sum that could wrap.
// A test and no Result, as in `reading`: one refusal is made of it, where it is asked.
pub(crate) fn fits(plan: PlanLists, output: usize) -> bool
    ensures { let p = plan.entry in let c = length p.closures.now in let f = length p.fibres.now in let s = length p.splices.now in
        Decides ((c % 2 ≡ 0) × (f % 4 ≡ 0) × (s % 8 ≡ 0) × (output ≡ 12 + c + f + s)) result }
{
    let closures = plan.closures.len();
    let fibres = plan.fibres.len();
    let splices = plan.splices.len();
    closures % 2 + fibres % 4 + splices % 8 == 0
        && 12 <= output
        && closures <= output - 12
        && fibres <= output - 12 - closures
        && output - 12 - closures - fibres == splices
}

// Puts the three sections, where they have exactly the room they need.
pub(crate) fn put_plan(plan: PlanLists, output: &mut [u8])
    requires { length output.old ≡ 12 + length plan.closures.now + length plan.fibres.now + length plan.splices.now }
    ensures { let p = plan.entry in output.new ≡ plan_bytes (lists p.closures.now p.fibres.now p.splices.now) }
{
    let start = Cursor { at: 0 };
    let second = put_section(plan.closures, output, start, plan.closures.len() / 2);
    let third = put_section(plan.fibres, output, second, plan.fibres.len() / 4);
    put_section(plan.splices, output, third, plan.splices.len() / 8);
}

// A count and the entries behind it. `pack_writer` has such steps within it: public, they would have to ask nothing of their callers.
fn put_section(list: &[u8], output: &mut [u8], c: Cursor, count: usize) -> Cursor
    requires { c.at + 4 + length list.now ≤ length output.old }
    ensures { Laid output.old c (word_bytes count ++ list.now) output.new result }
{
    let at = c.at;
    let size = list.len();
    let bytes = count_bytes(count);
    span::copy(&bytes, output, 0, at, 4);
    span::copy(list, output, 0, at + 4, size);
    Cursor { at: at + 4 + size }
}
