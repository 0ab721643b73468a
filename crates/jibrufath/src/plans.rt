// The calls on splice plans: writing one, measuring and reading one, and receiving one with a pack.
ghost use Rattle.std.specs.Prelude.{◌≡◌, length, unwrap_or};
ghost use Rattle.field.specs.Field.{reduction};
ghost use Rattle.receiver.specs.Receive.{lent};
ghost use Rattle.plan_form.specs.Form.{FormOutcome, plan_in, lists};
ghost use Rattle.plan.specs.Calls.{WritePlanOutcome, ReadPlanOutcome};
ghost use Rattle.plan.specs.Receiving.{no_entries, ReceivePlanOutcome};
ghost use Rattle.jibrufath.specs.Exports.{Exported, uncounted};
ghost use Rattle.jibrufath.specs.Plans.{entry_places, PlanExport, ReceivePlanExport};

use crate::answer_word;
use crate::packs::{ending_word, receive_counts};
use plan_form::{PlanCounts, PlanLists};

// Writes the file of a plan.
#[unsafe(no_mangle)]
pub extern "C" fn jibrufath_write_plan(
    closures: &[u8],
    fibres: &[u8],
    splices: &[u8],
    output: &mut [u8],
) -> u64
    ensures { Exported uncounted (WritePlanOutcome (lists closures.now fibres.now splices.now) output.old output.new) result }
{
    let lists = PlanLists {
        closures,
        fibres,
        splices,
    };
    answer_word(plan::write_plan(lists, output))
}

// The counts of the plan in a file.
#[unsafe(no_mangle)]
pub extern "C" fn jibrufath_measure_plan(file: &[u8], entries: &mut [u64; 3]) -> u64
    ensures { PlanExport (FormOutcome (plan_in file.now) (length file.now) (plan_in file.now).counts) entries.new result }
{
    let read = plan_form::measure_plan(file);
    *entries = entry_places(read.ok());
    answer_word(read)
}

// Reads the plan in a file: its entries begin the lists.
#[unsafe(no_mangle)]
pub extern "C" fn jibrufath_read_plan(
    file: &[u8],
    closures: &mut [u8],
    fibres: &mut [u8],
    splices: &mut [u8],
    entries: &mut [u64; 3],
) -> u64
    ensures { PlanExport (ReadPlanOutcome file.now (lists closures.old fibres.old splices.old) (lists closures.new fibres.new splices.new)) entries.new result }
{
    let read = plan::read_plan(file, closures, fibres, splices);
    *entries = entry_places(read.ok());
    answer_word(read)
}

// Receives an air pack and shows the plan in its file. The counts are those of the receiver.
#[unsafe(no_mangle)]
pub extern "C" fn jibrufath_receive_plan(
    air: &[u8],
    cube: &mut [u8],
    flags: &mut [u8],
    file: &mut [u8],
    closures: &mut [u8],
    fibres: &mut [u8],
    splices: &mut [u8],
    counts: &mut [u64; 16],
    entries: &mut [u64; 3],
) -> u64
    ensures { ReceivePlanExport (ReceivePlanOutcome reduction air.now (lent cube.old flags.old file.old) (lent cube.new flags.new file.new)
        (lists closures.old fibres.old splices.old) (lists closures.new fibres.new splices.new))
        counts.new entries.new result }
{
    match plan::receive_plan(air, cube, flags, file, closures, fibres, splices) {
        Err(f) => {
            *counts = [0; 16];
            *entries = [0; 3];
            crate::refusal_word(f)
        }
        Ok(shown) => {
            let received = shown.received;
            *counts = receive_counts(received);
            *entries = entry_places(shown.entries);
            ending_word(received.ending)
        }
    }
}

// The counts of entries in their three places, 0 where no plan is shown. No From: neither `PlanCounts` nor an array is this crate's own.
fn entry_places(shown: Option<PlanCounts>) -> [u64; 3]
    ensures { result ≡ entry_places (unwrap_or shown no_entries) }
{
    match shown {
        Some(n) => [n.closures as u64, n.fibres as u64, n.splices as u64],
        None => [0; 3],
    }
}
