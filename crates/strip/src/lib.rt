// Strips: the bytes of 64 neighbouring lines, or of 64 lines whose bytes were gathered, at one place. They are taken and given back by value,
// so that the compiler sees that nothing else can change them and keeps them in registers. Every public function is total.
#![tactic(auto)]

ghost use Rattle.std.specs.Prelude.{◌≡◌, replicate};
ghost use Rattle.span.specs.Decision.{Decides};
ghost use Rattle.strip.specs.Strip.{Step, Products, Sums, AllZero};

use std::array;

// The first and the second syndrome of each of up to N lines. Two arrays, so that a step works on all first and on all second ones at once; room for N,
// since there is no heap, and the run says how many are in use.
#[derive(Clone, Copy)]
pub struct Syndromes<const N: usize> {
    pub first: [u8; N],
    pub second: [u8; N],
}

impl<const N: usize> Syndromes<N> {
    // Those of lines of which no place is summed yet.
    pub fn zeros() -> Syndromes<N>
        ensures first { result.first ≡ replicate N 0 }
        ensures second { result.second ≡ replicate N 0 }
    {
        Syndromes {
            first: [0; N],
            second: [0; N],
        }
    }

    // Whether those of the first n lines are 00h: their bytes are joined by or, so that no line costs a branch. Both arrays in one
    // turn: a fold over a zip of two slices says the same in more words.
    pub fn all_zero(&self, n: usize) -> bool
        ensures { Decides (AllZero n self.now.first self.now.second) result }
    {
        let mut any: u8 = 0;
        for t in 0..n.min(N) {
            any |= self.first[t] | self.second[t];
        }
        any == 0
    }
}

impl Syndromes<64> {
    // One of Horner's steps, by a place whose bytes are c. Its loops in `line` and `rows` stay apart: a function that called for the bytes of each
    // place would have to require that it may, and a function that another crate can call requires nothing. By index: std does not say what an array
    // holds once an adapter of `iter_mut` has written it.
    pub fn step(&mut self, reduction: u8, c: [u8; 64])
        ensures { Step reduction c self.old.first self.old.second self.new.first self.new.second }
    {
        for t in 0..64 {
            self.first[t] ^= c[t];
            self.second[t] = field::xtime(reduction, self.second[t]) ^ c[t];
        }
    }

    // The byte at the later erasure of each line, from its syndromes and the row [b, d] of the inverted array.
    pub fn products(self, reduction: u8, b: u8, d: u8) -> [u8; 64]
        ensures { Products reduction b d self.first self.second result }
    {
        array::from_fn(|t| field::dot(reduction, self.first[t], b, self.second[t], d))
    }
}

// The sums of the bytes of two strips.
pub fn sums(a: [u8; 64], b: [u8; 64]) -> [u8; 64]
    ensures { Sums a b result }
{
    array::from_fn(|t| a[t] ^ b[t])
}
