// A section of a plan, its entries, and the refusal of a plan.
ghost use Rattle.std.specs.Prelude.{◌≡◌, ◌+◌, ◌-◌, ◌*◌, ◌/◌, ◌≤◌, ◌<◌, min, length, MatchResult};
ghost use Rattle.answer.specs.declared.Refusal.TheVariants.{Entry};
ghost use Rattle.plan_form.specs.Inner.Checks.{Inside};

use answer::Refusal;

// The byte where a section's entries begin, and how many there are. `pack::Section` has the same fields, but a plan is no pack: this crate does not
// stand on `pack`.
#[derive(Clone, Copy)]
pub(crate) struct Section {
    pub(crate) at: usize,
    pub(crate) count: usize,
}

// A section whose entries of SIZE bytes all stand in `bytes`. No slice of arrays: a refusal names a byte of the file, and `entries` goes by it.
#[derive(Clone, Copy)]
pub(crate) struct Entries<'a, const SIZE: usize> {
    pub(crate) bytes: &'a [u8],
    pub(crate) s: Section,
    pub(crate) ghost inside: { Inside SIZE bytes.now s },
}

impl Section {
    // Passes a section whose entries of SIZE bytes all keep their rules. `kept` is how many do, from the first on: where there is one more, the form
    // is broken at the byte where it begins.
    pub(crate) fn passed<const SIZE: usize>(self, kept: usize) -> Result<(), Refusal>
        requires { kept < self.count → self.at + SIZE * kept ≤ 18446744073709551615 }
        ensures { MatchResult result (λ _. self.count ≤ kept) (λ f. (kept < self.count) × (f ≡ Entry (self.at + SIZE * kept))) }
    {
        if kept < self.count {
            return Err(broken(self.at + SIZE * kept));
        }
        Ok(())
    }
}

// The whole entries of a list.
pub(crate) fn listed<const SIZE: usize>(list: &[u8]) -> Entries<'_, SIZE>
    requires { 0 < SIZE }
    ensures { (result.bytes.now ≡ list.now) × (result.s.at ≡ 0) × (result.s.count ≡ length list.now / SIZE) }
{
    Entries {
        bytes: list,
        s: Section {
            at: 0,
            count: list.len() / SIZE,
        },
    }
}

// The entries of a section that are whole: all that its count says, or those that the file has room for.
pub(crate) fn whole<const SIZE: usize>(file: &[u8], s: Section) -> Entries<'_, SIZE>
    requires { (s.at ≤ length file.now) × (0 < SIZE) }
    ensures { (result.bytes.now ≡ file.now) × (result.s.at ≡ s.at) × (result.s.count ≡ min s.count ((length file.now - s.at) / SIZE)) }
{
    let count = s.count.min((file.len() - s.at) / SIZE);
    Entries {
        bytes: file,
        s: Section { count, ..s },
    }
}

// 18, with the byte at which the form is broken. `as`: there is no From of usize for u64.
pub(crate) fn broken(at: usize) -> Refusal
    ensures { result ≡ Entry at }
{
    Refusal::Entry(at as u64)
}
