// The rule of closures: strictly ascending numbers.
ghost use Rattle.plan_form.specs.Entries.{entries, ClosureRule};
ghost use Rattle.plan_form.specs.Inner.Checks.{FirstKept};

use crate::numbers::half;
use crate::sections::Entries;

// How many closures of the section keep their rule, from the first on: a count, from which the caller tells where the form is broken. The loop is no
// `position`, here and in the other two sections: the least that may follow goes along with it.
pub(crate) fn kept(closures: &Entries<2>) -> usize
    ensures { let c = closures.now in FirstKept (ClosureRule (entries c.bytes.now c.s.at)) c.s.count result }
{
    let mut least = 0;
    for k in 0..closures.s.count {
        let number = half(closures.bytes, closures.s.at + 2 * k);
        if number < least {
            return k;
        }
        least = number + 1;
    }
    closures.s.count
}
