// The calls that C and Rust link: a shape as four numbers, an answer as one word of 64 bits. Calls on cubes, on a line, on packs, on plans, on
// texts, on sizes and in the field. Each call stands written out with its parameters, though many are alike: C calls them by name.
#![tactic(auto)]

mod cubes;
mod elements;
mod lines;
mod needs;
mod packs;
mod plans;
mod sizes;
mod texts;

ghost use Rattle.std.specs.Prelude.{◌≡◌, ◌+◌, ◌*◌, ◌^◌, ◌<◌};
ghost use Rattle.answer.specs.Values.{value_of, refusal, number_of, place_of};
ghost use Rattle.jibrufath.specs.Exports.{uncounted, whole, beside, packed};

use answer::Refusal;

// The word of an answer that carries no count, whatever its result is. A match as in `size_word`: their counts are two definitions, `uncounted` and `whole`.
pub(crate) fn answer_word<T: Copy>(answer: Result<T, Refusal>) -> u64
    requires { beside uncounted (value_of answer) < 2 ^ 45 }
    ensures { result ≡ packed uncounted (value_of answer) }
{
    match answer {
        Ok(_) => 0,
        Err(f) => refusal_word(f),
    }
}

// The word of a size or of another count. `as` here and in the places of C: there is no From of usize for u64.
pub(crate) fn size_word(size: Result<usize, Refusal>) -> u64
    requires { beside whole (value_of size) < 2 ^ 45 }
    ensures { result ≡ packed whole (value_of size) }
{
    match size {
        Ok(n) => 256 * (n as u64),
        Err(f) => refusal_word(f),
    }
}

// The word of a refusal: its number, and above it the place that it names.
pub(crate) fn refusal_word(f: Refusal) -> u64
    requires { place_of {A = Unit} (refusal f) < 2 ^ 45 }
    ensures { result ≡ number_of {A = Unit} (refusal f) + 256 * place_of {A = Unit} (refusal f) }
{
    answer::number(f) + 256 * answer::place(f)
}
