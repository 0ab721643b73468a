// The numbers of a plan, two or four bytes, low byte first.
ghost use Rattle.std.specs.Prelude.{◌≡◌, ◌+◌, ◌≤◌, ◌<◌, length};
ghost use Rattle.cursor.specs.Steps.{word};
ghost use Rattle.plan_form.specs.Entries.{half};

// The number in two bytes at a place.
pub(crate) fn half(bytes: &[u8], at: usize) -> usize
    requires { at + 2 ≤ length bytes.now }
    ensures { (result ≡ half bytes.now at) × (result < 65536) }
{
    usize::from(u16::from_le_bytes([bytes[at], bytes[at + 1]]))
}

// The number in four bytes at a place. A `Cursor` has such a step, which another crate calls and which so asks nothing of its caller; this one asks
// that the bytes are there. `as`: there is no From of u32 for usize.
pub(crate) fn word(bytes: &[u8], at: usize) -> usize
    requires { at + 4 ≤ length bytes.now }
    ensures { (result ≡ word bytes.now at) × (result < 4294967296) }
{
    u32::from_le_bytes([bytes[at], bytes[at + 1], bytes[at + 2], bytes[at + 3]]) as usize
}
