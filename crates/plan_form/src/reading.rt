// The plan in a file, section by section: entries are judged up to the first that is cut, and a section once those before it are sound.
ghost use Rattle.std.specs.Prelude.{◌≡◌, ◌+◌, ◌≤◌, ◌<◌, length, MatchResult};
ghost use Rattle.answer.specs.Values.{value_of};
ghost use Rattle.answer.specs.declared.Refusal.TheVariants.{Entry};
ghost use Rattle.cursor.specs.Steps.{word};
ghost use Rattle.plan_form.specs.Form.{FormOutcome, plan_in};

use crate::sections::{Entries, Section, broken, whole};
use crate::{PlanCounts, closures, fibres, splices};
use answer::Refusal;
use cursor::Cursor;

// The closures, then the fibres, then the splices, and the file's end.
pub(crate) fn measure(file: &[u8]) -> Result<PlanCounts, Refusal>
    ensures { FormOutcome (plan_in file.now) (length file.now) (plan_in file.now).counts (value_of result) }
{
    let c = counted(file, 0)?;
    c.passed::<2>(closures::kept(&whole(file, c)))?;
    let f = counted(file, c.at + 2 * c.count)?;
    f.passed::<4>(fibres::kept(&Entries { bytes: file, s: c }, &whole(file, f)))?;
    let s = counted(file, f.at + 4 * f.count)?;
    s.passed::<8>(splices::kept(&Entries { bytes: file, s: f }, &whole(file, s)))?;
    let end = s.at + 8 * s.count;
    if end < file.len() {
        return Err(broken(end));
    }
    Ok(PlanCounts {
        closures: c.count,
        fibres: f.count,
        splices: s.count,
    })
}

// The section whose count stands at a byte. Where the count is cut, the form is broken there.
fn counted(file: &[u8], at: usize) -> Result<Section, Refusal>
    ensures { MatchResult result
        (λ s. (at + 4 ≤ length file.now) × (s.count ≡ word file.now at) × (s.at ≡ at + 4))
        (λ f. (length file.now < at + 4) × (f ≡ Entry at)) }
{
    // A cut is told as the byte where it is: by `map_err` the clause for the cut would be one of the closure, and no shorter.
    let Ok((count, next)) = (Cursor { at }).count(file) else {
        return Err(broken(at));
    };
    Ok(Section { at: next.at, count })
}
