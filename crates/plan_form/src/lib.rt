// The form of a splice plan: closures, fibres and splices, each after its count, and the first byte that breaks it.
#![tactic(auto)]

mod closures;
mod fibres;
mod lists;
mod numbers;
mod reading;
mod sections;
mod splices;

ghost use Rattle.std.specs.Prelude.{length};
ghost use Rattle.answer.specs.Values.{value_of};
ghost use Rattle.plan_form.specs.Form.{FormOutcome, plan_end, plan_in, lists, counts_of, plan_of};

use answer::Refusal;

// How many entries each section of a plan has.
#[derive(Clone, Copy)]
pub struct PlanCounts {
    pub closures: usize,
    pub fibres: usize,
    pub splices: usize,
}

// A plan in three lists: the entries of each section, as bytes in the file's form, 2 a closure, 4 a fibre, 8 a splice.
#[derive(Clone, Copy)]
pub struct PlanLists<'a> {
    pub closures: &'a [u8],
    pub fibres: &'a [u8],
    pub splices: &'a [u8],
}

// The counts of the plan that a file holds, or 18.
pub fn measure_plan(file: &[u8]) -> Result<PlanCounts, Refusal>
    ensures { FormOutcome (plan_in file.now) (length file.now) (plan_in file.now).counts (value_of result) }
{
    reading::measure(file)
}

// Whether three lists are a plan, or 18 with the byte at which the entry would stand in its file. Bytes behind the last whole entry of a list
// have no part in it.
pub fn check_lists(plan: PlanLists) -> Result<(), Refusal>
    ensures { let p = plan.entry in let l = lists p.closures.now p.fibres.now p.splices.now in FormOutcome (plan_of l) (plan_end (counts_of l)) tt (value_of result) }
{
    lists::check(plan.closures, plan.fibres, plan.splices)
}
