// Flags: one byte a cell, 0 known, 1 missing, 2 known and unsent.

ghost use Rattle.std.specs.Prelude.{◌≡◌, ◌<◌};
ghost use Rattle.shape.specs.Flags.{flags_valid, none_missing};

// The flags of a caller: a cell is known, missing, or known and unsent. They are bytes, since C lends them.
pub const KNOWN: u8 = 0;

pub const MISSING: u8 = 1;

pub const UNSENT: u8 = 2;

// The flag that a call gives a cell between two of its steps, above every flag of a caller. What it means there the call says.
pub const MARKED: u8 = 3;

// Whether every flag is 0, 1 or 2. The tests are joined by `&`: without an early exit many flags are tested at once.
pub fn valid(flags: &[u8]) -> bool
    ensures { result ≡ flags_valid flags.now }
{
    flags.iter().fold(true, |so, flag| so & (*flag <= UNSENT))
}

// Whether no flag is 1, in the same way. One fold each: a function that both call would take the test as a closure, and neither would be shorter.
pub fn none_missing(flags: &[u8]) -> bool
    ensures { result ≡ none_missing flags.now }
{
    flags.iter().fold(true, |so, flag| so & (*flag != MISSING))
}
