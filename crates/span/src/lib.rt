// Spans: so many bytes of a slice from a place on, copied, set, compared, tested for 00h. Every public function is total. A bool of `copy` and `set`
// says whether the spans lay inside: there is one way to fail, and each caller knows before that they do. A place and a number stand beside each slice:
// of two slices alone a call would have to ask that they are of one length.
#![tactic(auto)]

ghost use Rattle.std.specs.Prelude.{◌≡◌, ◌+◌, ◌<◌, ◌≤◌, length, take, drop, MatchOption};
ghost use Rattle.span.specs.Decision.{Decides};
ghost use Rattle.span.specs.Span.{Copied, Piece, CopyOutcome, StripOutcome, SetOutcome, SameBytes, ZeroBytes};

use std::array;

// Copies n bytes of `src` from `from` on to `dst` from `to` on, where both spans lie inside; else changes nothing.
pub fn copy(src: &[u8], dst: &mut [u8], from: usize, to: usize, n: usize) -> bool
    ensures { CopyOutcome src.now from dst.old to n dst.new result }
{
    let Some(src) = part(src, from, n) else {
        return false;
    };
    if part(dst, to, n).is_none() {
        return false;
    }
    if n < 16 {
        for i in 0..n {
            dst[to + i] = src[i];
        }
    } else {
        pieces(src, dst, to);
    }
    true
}

// Copies 64 bytes as `copy` does and answers them, so that whoever sums what is copied need not read it again. The answer is 64 times 00h
// where a span does not lie inside. No Option: a public call that answers 64 bytes for every input asks no caller for the other case.
pub fn copy_strip(src: &[u8], dst: &mut [u8], from: usize, to: usize) -> [u8; 64]
    ensures { StripOutcome src.now from dst.old to dst.new result }
{
    if part(src, from, 64).is_none() || part(dst, to, 64).is_none() {
        return [0u8; 64];
    }
    strip(src, dst, from, to)
}

// Makes the n bytes from `at` on v, where they lie inside; else changes nothing. By `fill`, which writes the last byte apart, up to 32 bytes
// take half as long again.
pub fn set(s: &mut [u8], at: usize, n: usize, v: u8) -> bool
    ensures { SetOutcome s.old at n v s.new result }
{
    if part(s, at, n).is_none() {
        return false;
    }
    for x in s[at..at + n].iter_mut() {
        *x = v;
    }
    true
}

// Whether the n bytes of `a` from `from` on and of `b` from `to` on lie inside and agree. The differences are joined by or: without an
// early exit many bytes are compared at once. By `==`, or a `zip`, or a `fold` over one, long spans take up to twice as long.
pub fn same(a: &[u8], b: &[u8], from: usize, to: usize, n: usize) -> bool
    ensures { Decides (SameBytes a.now from b.now to n) result }
{
    let (Some(a), Some(b)) = (part(a, from, n), part(b, to, n)) else {
        return false;
    };
    let mut any: u8 = 0;
    for i in 0..n {
        any |= a[i] ^ b[i];
    }
    any == 0
}

// Whether the n bytes from `at` on lie inside and are 00h, in the same way. By `all` long spans take fifteen times as long, by `fold` half as
// long again.
pub fn zeros(s: &[u8], at: usize, n: usize) -> bool
    ensures { Decides (ZeroBytes s.now at n) result }
{
    let Some(s) = part(s, at, n) else {
        return false;
    };
    let mut any: u8 = 0;
    for x in s {
        any |= *x;
    }
    any == 0
}

// The n bytes from `at` on, where they lie inside.
fn part(s: &[u8], at: usize, n: usize) -> Option<&[u8]>
    ensures { MatchOption result (length s.now < at + n) (λ p. (at + n ≤ length s.now) × (p.now ≡ take n (drop at s.now))) }
{
    s.get(at..)?.get(..n)
}

// 16 bytes at a time, by value, so that the compiler need not know whether the slices overlap. It writes larger pieces from the far end
// to the near one, which costs a quarter more. The last piece may reach back over bytes that are copied already.
fn pieces(src: &[u8], dst: &mut [u8], to: usize)
    requires { (16 ≤ length src.now) × (to + length src.now ≤ length dst.old) }
    ensures { Copied src.now 0 dst.old to (length src.now) dst.new }
{
    let last = src.len() - 16;
    for i in (0..last).step_by(16) {
        put(dst, to + i, taken(src, i));
    }
    put(dst, to + last, taken(src, last));
}

// 16 bytes at a time, by value, so that the compiler keeps them in registers: each piece is read once, and put in the slice and in the
// answer. By `copy_from_slice` it takes three times as long.
fn strip(src: &[u8], dst: &mut [u8], from: usize, to: usize) -> [u8; 64]
    requires { (from + 64 ≤ length src.now) × (to + 64 ≤ length dst.old) }
    ensures { Copied src.now from dst.old to 64 dst.new × Piece src.now from 64 result }
{
    let mut c = [0u8; 64];
    for i in (0..64usize).step_by(16) {
        let p = taken(src, from + i);
        put(dst, to + i, p);
        put(&mut c, i, p);
    }
    c
}

// The 16 bytes from `from` on.
fn taken(src: &[u8], from: usize) -> [u8; 16]
    requires { from + 16 ≤ length src.now }
    ensures { Piece src.now from 16 result }
{
    array::from_fn(|i| src[from + i])
}

// Writes 16 bytes from `to` on.
fn put(dst: &mut [u8], to: usize, c: [u8; 16])
    requires { to + 16 ≤ length dst.old }
    ensures { Copied c 0 dst.old to 16 dst.new }
{
    for i in 0..16 {
        dst[to + i] = c[i];
    }
}
