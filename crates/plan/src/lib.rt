// Splice plans over the receiver: written to the bytes of a file, read from them, and received with a pack. Of the receiver only its contract is used.
#![tactic(auto)]

mod reading;
mod writing;

ghost use Rattle.answer.specs.Values.{value_of};
ghost use Rattle.field.specs.Field.{reduction};
ghost use Rattle.receiver.specs.Receive.{lent};
ghost use Rattle.plan_form.specs.Form.{lists};
ghost use Rattle.plan.specs.Calls.{WritePlanOutcome, ReadPlanOutcome};
ghost use Rattle.plan.specs.Receiving.{shown_value, shown_counts, shown_entries, ReceivePlanOutcome};

use answer::{Fault, Refusal};
use plan_form::{PlanCounts, PlanLists};
use receiver::{Ending, Received};

// The receiver's answer, and the entries of the plan that is shown; none where cells are left.
#[derive(Clone, Copy)]
pub struct PlanReceived {
    pub received: Received,
    pub entries: Option<PlanCounts>,
}

// Writes the file of a plan, whose entries are lent as they stand in it.
pub fn write_plan(plan: PlanLists, output: &mut [u8]) -> Result<(), Refusal>
    ensures { let p = plan.entry in WritePlanOutcome (lists p.closures.now p.fibres.now p.splices.now) output.old output.new (value_of result) }
{
    if !writing::fits(plan, output.len()) {
        return Err(Refusal::Plain(Fault::SliceLength));
    }
    plan_form::check_lists(plan)?;
    writing::put_plan(plan, output);
    Ok(())
}

// Reads the plan in a file: its entries begin the lists. They stay three parameters here and below: a struct of slices that are written to would have
// to say in each contract that its fields are still the slices that were lent.
pub fn read_plan(
    file: &[u8],
    closures: &mut [u8],
    fibres: &mut [u8],
    splices: &mut [u8],
) -> Result<PlanCounts, Refusal>
    ensures { ReadPlanOutcome file.now (lists closures.old fibres.old splices.old) (lists closures.new fibres.new splices.new) (value_of result) }
{
    let n = plan_form::measure_plan(file)?;
    if !reading::room(n, closures.len(), fibres.len(), splices.len()) {
        return Err(Refusal::Plain(Fault::SliceLength));
    }
    reading::show(file, closures, fibres, splices, n);
    Ok(n)
}

// Receives a pack and shows the plan in its file. The file is read only where the receiver has one.
pub fn receive_plan(
    air: &[u8],
    cube: &mut [u8],
    flags: &mut [u8],
    file: &mut [u8],
    closures: &mut [u8],
    fibres: &mut [u8],
    splices: &mut [u8],
) -> Result<PlanReceived, Refusal>
    ensures { ReceivePlanOutcome reduction air.now (lent cube.old flags.old file.old) (lent cube.new flags.new file.new)
        (lists closures.old fibres.old splices.old) (lists closures.new fibres.new splices.new)
        (shown_value result) (shown_counts result) (shown_entries result) }
{
    let received = receiver::receive_pack(air, cube, flags, file)?;
    let entries = match received.ending {
        Ending::Left(_) => None,
        Ending::File(n) => Some(read_plan(&file[..n], closures, fibres, splices)?),
    };
    Ok(PlanReceived { received, entries })
}
