// The rules of fibres: numbers 1 to 288, strictly ascending pairs, listed closures.
ghost use Rattle.std.specs.Prelude.{ℕ, ◌+◌, ◌≤◌, ◌<◌, MatchOption};
ghost use Rattle.span.specs.Decision.{Decides};
ghost use Rattle.plan_form.specs.Entries.{entries, ClosureRule, Listed, FibreRule};
ghost use Rattle.plan_form.specs.Inner.Checks.{FirstKept, Walked};

use crate::numbers::half;
use crate::sections::Entries;

// How many fibres of the section keep their rules, from the first on. The closures are walked through once: those before `q` are
// below every fibre's that is still to come.
pub(crate) fn kept(closures: &Entries<2>, fibres: &Entries<4>) -> usize
    requires { let c = closures.now in (k : ℕ) → k < c.s.count → ClosureRule (entries c.bytes.now c.s.at) k }
    ensures { let c = closures.now in let f = fibres.now in FirstKept (FibreRule (entries c.bytes.now c.s.at) c.s.count (entries f.bytes.now f.s.at)) f.s.count result }
{
    let mut least = 0;
    let mut q = 0;
    for k in 0..fibres.s.count {
        let closure = half(fibres.bytes, fibres.s.at + 4 * k);
        let number = half(fibres.bytes, fibres.s.at + 4 * k + 2);
        let pair = closure * 65536 + number;
        if !in_order(number, pair, least) {
            return k;
        }
        let Some(next) = find(closures, q, closure) else {
            return k;
        };
        q = next;
        least = pair + 1;
    }
    fibres.s.count
}

// Whether a fibre's number is 1 to 288, and its pair not below the least that may follow.
fn in_order(number: usize, pair: usize, least: usize) -> bool
    ensures { Decides ((1 ≤ number) × (number ≤ 288) × (least ≤ pair)) result }
{
    (1..=288).contains(&number) && least <= pair
}

// Where the closure sought stands among those from q on, or None where it is not listed: the first that is not below it is the one, or there is none.
// A loop and no `find` of the library, which would read that closure once more.
fn find(closures: &Entries<2>, q: usize, sought: usize) -> Option<usize>
    requires { let c = closures.now in Walked (entries c.bytes.now c.s.at) c.s.count sought q
        × ((k : ℕ) → k < c.s.count → ClosureRule (entries c.bytes.now c.s.at) k) }
    ensures { let c = closures.now in MatchOption result (Listed (entries c.bytes.now c.s.at) c.s.count sought → ⊥)
        (λ r. Listed (entries c.bytes.now c.s.at) c.s.count sought × Walked (entries c.bytes.now c.s.at) c.s.count sought r) }
{
    for r in q..closures.s.count {
        let closure = half(closures.bytes, closures.s.at + 2 * r);
        if sought <= closure {
            return if closure == sought { Some(r) } else { None };
        }
    }
    None
}
