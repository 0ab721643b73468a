// The call that says what memory a pack's calls are lent, from its section 1 alone.
ghost use Rattle.std.specs.Prelude.{◌≡◌};
ghost use Rattle.pack.proofs.Sound.{HeaderSound};
ghost use Rattle.jibrufath.specs.Needs.{needs_of, NeedsExport};

use pack::Header;

// The shape in section 1, the sizes of what its calls are lent, and the data cells in use; 16 zeros with a refusal.
#[unsafe(no_mangle)]
pub extern "C" fn jibrufath_needs(pack: &[u8], needs: &mut [u64; 16]) -> u64
    ensures { NeedsExport pack.now needs.new result }
{
    match pack::read_header(pack) {
        Err(f) => {
            *needs = [0; 16];
            answer::number(f)
        }
        Ok((h, _)) => {
            *needs = needs_of(h);
            0
        }
    }
}

// What the calls of a pack with this header are lent. No From: neither a header nor an array is this crate's own.
fn needs_of(h: Header) -> [u64; 16]
    requires { HeaderSound h }
    ensures { result ≡ needs_of h }
{
    let sh = h.shape;
    let z = h.sizes;
    // A header that was read has a size.
    let Ok(size) = pack_writer::written_bytes(h) else {
        return [0; 16];
    };
    [
        sh.l1 as u64,
        sh.l2 as u64,
        sh.l3 as u64,
        sh.w as u64,
        z.cells as u64,
        z.bytes as u64,
        z.capacity as u64,
        (z.capacity - 4) as u64,
        size as u64,
        h.used as u64,
        0,
        0,
        0,
        0,
        0,
        0,
    ]
}
