// The rules of splices: two fibres of one closure, the first lower, first indexes ascending, each fibre in at most one splice.
ghost use Rattle.std.specs.Prelude.{◌≡◌, ◌⊎◌, ◌+◌, ◌<◌, set};
ghost use Rattle.span.specs.Decision.{Decides};
ghost use Rattle.plan_form.specs.Entries.{entries, closure_of, fibre_number, SpliceRule};
ghost use Rattle.plan_form.specs.Inner.Checks.{FirstKept, FibresKept, InRank, Marked};

use crate::numbers::{half, word};
use crate::sections::Entries;

// Fibres that keep their rules, and the marks of those that are the second of a splice, by the fibre's number. The memory is fixed, and a mark is a closure
// and 1, so that 0 is the mark of none and no Option doubles it.
#[derive(Drop)]
struct Marks<'a> {
    fibres: Entries<'a, 4>,
    marks: [usize; 289],
    ghost kept: { FibresKept (entries fibres.bytes.now fibres.s.at) fibres.s.count },
}

// How many splices of the section keep their rule, from the first on. First indexes ascend and a second is above its first, so only an
// earlier second can clash. Each leaves the mark of its closure at its fibre's number; fibres of one closure have different numbers, and
// other closures have other marks, so that no mark is ever cleared.
pub(crate) fn kept(fibres: &Entries<4>, splices: &Entries<8>) -> usize
    requires { let f = fibres.now in FibresKept (entries f.bytes.now f.s.at) f.s.count }
    ensures { let f = fibres.now in let s = splices.now in FirstKept (SpliceRule (entries f.bytes.now f.s.at) f.s.count (entries s.bytes.now s.s.at)) s.s.count result }
{
    let mut marked = Marks {
        fibres: *fibres,
        marks: [0; 289],
    };
    let mut above = 0;
    for k in 0..splices.s.count {
        let a = word(splices.bytes, splices.s.at + 8 * k);
        let b = word(splices.bytes, splices.s.at + 8 * k + 4);
        if !in_rank(fibres, above, a, b) || marked.either(a, b) {
            return k;
        }
        marked.mark(b);
        above = a + 1;
    }
    splices.s.count
}

// Whether a and b are fibres of one closure, a the lower one and not below `above`.
fn in_rank(fibres: &Entries<4>, above: usize, a: usize, b: usize) -> bool
    ensures { let f = fibres.now in Decides (InRank (entries f.bytes.now f.s.at) f.s.count above a b) result }
{
    let count = fibres.s.count;
    above <= a && a < b && b < count && closure(fibres, a) == closure(fibres, b)
}

// The closure of fibre x. No method of `Entries`: each asks that the fibre is there, and `fibres`, which goes over them in their order, reads them in place.
fn closure(fibres: &Entries<4>, x: usize) -> usize
    requires { x < fibres.now.s.count }
    ensures { let f = fibres.now in (result ≡ closure_of (entries f.bytes.now f.s.at) x) × (result < 65536) }
{
    half(fibres.bytes, fibres.s.at + 4 * x)
}

// The number of fibre x.
fn number(fibres: &Entries<4>, x: usize) -> usize
    requires { x < fibres.now.s.count }
    ensures { let f = fibres.now in result ≡ fibre_number (entries f.bytes.now f.s.at) x }
{
    half(fibres.bytes, fibres.s.at + 4 * x + 2)
}

impl Marks<'_> {
    // Whether one of two fibres bears the mark of its closure.
    fn either(&self, a: usize, b: usize) -> bool
        requires { (a < self.now.fibres.s.count) × (b < self.now.fibres.s.count) }
        ensures { let f = self.now.fibres in Decides (Marked (entries f.bytes.now f.s.at) self.now.marks a ⊎ Marked (entries f.bytes.now f.s.at) self.now.marks b) result }
    {
        self.marked(a) || self.marked(b)
    }

    // Whether a fibre bears the mark of its closure.
    fn marked(&self, x: usize) -> bool
        requires { x < self.now.fibres.s.count }
        ensures { let f = self.now.fibres in Decides (Marked (entries f.bytes.now f.s.at) self.now.marks x) result }
    {
        self.marks[number(&self.fibres, x)] == closure(&self.fibres, x) + 1
    }

    // Gives a fibre the mark of its closure.
    fn mark(&mut self, x: usize)
        requires { x < self.old.fibres.s.count }
        ensures { let f = self.old.fibres in (self.new.fibres ≡ f)
            × (self.new.marks ≡ set self.old.marks (fibre_number (entries f.bytes.now f.s.at) x) (closure_of (entries f.bytes.now f.s.at) x + 1)) }
    {
        self.marks[number(&self.fibres, x)] = closure(&self.fibres, x) + 1;
    }
}
