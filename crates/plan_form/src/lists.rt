// A plan in three lists: the first entry that breaks its rule, by the byte at which it would stand in the file.
ghost use Rattle.answer.specs.Values.{value_of};
ghost use Rattle.plan_form.specs.Form.{FormOutcome, plan_end, lists, counts_of, plan_of};

use crate::sections::{Section, listed};
use crate::{closures, fibres, splices};
use answer::Refusal;

// The closures, then the fibres, then the splices: a section is judged once those before it keep their rules.
pub(crate) fn check(closures: &[u8], fibres: &[u8], splices: &[u8]) -> Result<(), Refusal>
    ensures { let l = lists closures.now fibres.now splices.now in FormOutcome (plan_of l) (plan_end (counts_of l)) tt (value_of result) }
{
    let c = listed(closures);
    let f = listed(fibres);
    let s = listed(splices);
    let first = Section { at: 4, ..c.s };
    first.passed::<2>(closures::kept(&c))?;
    let second = Section {
        at: 8 + 2 * c.s.count,
        ..f.s
    };
    second.passed::<4>(fibres::kept(&c, &f))?;
    let third = Section {
        at: 12 + 2 * c.s.count + 4 * f.s.count,
        ..s.s
    };
    third.passed::<8>(splices::kept(&f, &s))
}
