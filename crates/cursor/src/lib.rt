// A cursor through bytes: a count of four bytes, or so many bytes, each read from the byte where the one before ended.
#![tactic(auto)]

ghost use Rattle.std.specs.Prelude.{◌≡◌, ◌+◌, ◌≤◌, ◌<◌, length};
ghost use Rattle.answer.specs.Values.{value_of, checked, passes};
ghost use Rattle.cursor.specs.Steps.{word, word_bytes, count, bytes};

use answer::{Fault, Refusal};

// A place in a pack. A place alone, with no bytes beside it: the definitions go by places, and the cursor of a writer stands in no pack yet.
#[derive(Clone, Copy)]
pub struct Cursor {
    pub at: usize,
}

impl Cursor {
    // The count at the cursor, four bytes, low first, and the cursor behind it; 6 where the pack ends before.
    pub fn count(self, pack: &[u8]) -> Result<(usize, Cursor), Refusal>
        ensures { value_of result ≡ checked (count pack.now self (λ n next. passes (n, next))) }
    {
        let (at, next) = self.bytes(pack, 4)?;
        Ok((word(pack, at), next))
    }

    // Where the n bytes at the cursor begin, and the cursor behind them; 6 where the pack ends before.
    pub fn bytes(self, pack: &[u8], n: usize) -> Result<(usize, Cursor), Refusal>
        ensures { value_of result ≡ checked (bytes pack.now self n (λ at next. passes (at, next))) }
    {
        let at = self.at;
        let len = pack.len();
        // By differences, since a sum could wrap; `checked_add` with a filter says the same, with a closure more.
        if len < n || len - n < at {
            return Err(Refusal::Plain(Fault::Truncated));
        }
        Ok((at, Cursor { at: at + n }))
    }
}

// The number in the four bytes at a place, low first. `as`: there is no From of u32 for usize.
fn word(bytes: &[u8], at: usize) -> usize
    requires { at + 4 ≤ length bytes.now }
    ensures { result ≡ word bytes.now at }
{
    u32::from_le_bytes([bytes[at], bytes[at + 1], bytes[at + 2], bytes[at + 3]]) as usize
}

// A count as its four bytes, low first.
pub fn count_bytes(n: usize) -> [u8; 4]
    ensures { result ≡ word_bytes n }
{
    let [a, b, c, d, ..] = n.to_le_bytes();
    [a, b, c, d]
}
