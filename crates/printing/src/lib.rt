// What the programs print: characters, decimal numbers and hexadecimal bytes, appended to a lent buffer. It is put there by hand: `write!` says what
// it wrote on Ok alone and may answer an Err, and these cut at the buffer's end and cannot fail. A refusal is its number, and a shape four numbers,
// since this crate stands on `io` alone.
#![tactic(auto)]

ghost use Rattle.std.specs.Prelude.{◌≡◌, ◌≤◌};
ghost use Rattle.printing.specs.Text.{decimal, hex_byte, numbered, triple, number_line, shape_line, refused_line};
ghost use Rattle.printing.specs.Append.{Appended};

// The bytes that an input, a cube and a written pack may have in the programs.
pub const LIMIT: usize = 65536;

// Puts bytes behind the first `at` of the buffer, as many as it has room for, and answers where they end. The buffer and the place stay two
// parameters of every function here: callers keep the place alone between calls, and what each promises names both.
pub fn append(out: &mut [u8], at: usize, bytes: &[u8]) -> usize
    ensures { Appended out.old at bytes.now out.new result }
{
    let room = out.len();
    if room < at {
        return room;
    }
    let count = bytes.len().min(room - at);
    // One by one: `copy_from_slice` is a call of memmove, which an archive asks nobody for.
    for i in 0..count {
        out[at + i] = bytes[i];
    }
    at + count
}

// The decimal digits of a number, without leading zeros: `io::decimal` fills 20 places from the front, and says how many it has used.
fn append_decimal(out: &mut [u8], at: usize, n: u64) -> usize
    ensures { Appended out.old at (decimal n) out.new result }
{
    let mut digits = [0u8; 20];
    let k = io::decimal(n, &mut digits);
    append(out, at, &digits[..k])
}

// The two lower-case hexadecimal digits of a byte. `io::hex` puts those of a number into 16 places, and would be no plainer.
pub fn hex_digits(b: u8) -> [u8; 2]
    ensures { result ≡ hex_byte b }
{
    [hex_digit(b / 16), hex_digit(b % 16)]
}

pub fn append_hex(out: &mut [u8], at: usize, b: u8) -> usize
    ensures { Appended out.old at (hex_byte b) out.new result }
{
    let pair = hex_digits(b);
    append(out, at, &pair)
}

// A label, then a number in decimal.
fn append_numbered(out: &mut [u8], at: usize, label: &[u8], n: u64) -> usize
    ensures { Appended out.old at (numbered label.now n) out.new result }
{
    let behind = append(out, at, label);
    append_decimal(out, behind, n)
}

// A label and three numbers, with single spaces between.
pub fn append_triple(out: &mut [u8], at: usize, label: &[u8], a: u64, b: u64, c: u64) -> usize
    ensures { Appended out.old at (triple label.now a b c) out.new result }
{
    let first = append_numbered(out, at, label, a);
    let second = append_numbered(out, first, b" ", b);
    append_numbered(out, second, b" ", c)
}

// A label, then a number in decimal, then the line's end.
pub fn append_line(out: &mut [u8], at: usize, label: &[u8], n: u64) -> usize
    ensures { Appended out.old at (number_line label.now n) out.new result }
{
    let behind = append_numbered(out, at, label, n);
    append(out, behind, b"\n")
}

// The line of a shape: its three lengths and W.
pub fn append_shape(out: &mut [u8], at: usize, l1: u64, l2: u64, l3: u64, w: u64) -> usize
    ensures { Appended out.old at (shape_line l1 l2 l3 w) out.new result }
{
    let lengths = append_triple(out, at, b"shape ", l1, l2, l3);
    append_line(out, lengths, b" ", w)
}

// The line of a refusal by its number.
pub fn append_refused(out: &mut [u8], at: usize, number: u64) -> usize
    ensures { Appended out.old at (refused_line number) out.new result }
{
    append_line(out, at, b"refused ", number)
}

// One digit; `io::hex` has none of one byte, as is said above.
fn hex_digit(d: u8) -> u8
    requires { d ≤ 15 }
    ensures { result ≡ Rattle.printing.specs.Text.hex_digit d }
{
    if d < 10 { b'0' + d } else { b'a' + (d - 10) }
}
