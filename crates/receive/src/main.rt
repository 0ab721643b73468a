// Receive: reads an air pack on standard input and prints what came of it: the file, or the cells that are left.
#![tactic(auto)]

mod pieces;
mod receiving;

ghost use Rattle.std.specs.Prelude.{OnOk};
ghost use Rattle.std.specs.Io.KnownBytes.{Appends};
ghost use Rattle.receive.specs.Printed.{printed};
ghost use Rattle.receive.specs.Writes.{Writes};
ghost use Rattle.receive.specs.Inner.Memory.{IsMemory};

use crate::pieces::Text;
use printing::LIMIT;
use std::alloc::Global;
use std::io;
use std::io::{Read, Write};

fn main(rt: HostRuntime) -> io::Result<()> {
    run(rt.alloc(), rt.stdin(), &mut rt.stdout())
}

// Reads an input, receives it and writes its text. One byte more than an input may have is read, so that a longer one is told. Contracts say that a
// buffer is LIMIT bytes long (`IsMemory`), since a Vec's slice becomes an array only by a call that may refuse. The program `write` reads in the same
// two lines; what each lends and prints differs. `as`: there is no From of usize for u64.
fn run<R: Read + Drop, W: Write>(alloc: Global, from: R, to: &mut W) -> io::Result<()>
    ensures { OnOk result (Writes (R.remaining from) (W.contents to.old) (W.contents to.new)) }
{
    let mut input = Vec::new(alloc);
    from.take(LIMIT as u64 + 1).read_to_end(&mut input)?;
    let mut cube = vec![in alloc; 0u8; LIMIT]?;
    let mut flag_bytes = vec![in alloc; 0u8; LIMIT]?;
    let mut file_bytes = vec![in alloc; 0u8; LIMIT]?;
    let mut out = vec![in alloc; 0u8; LIMIT]?;
    let flags = flag_bytes.as_mut_slice();
    let file = file_bytes.as_mut_slice();
    let outcome = receiving::receive(&input, &mut cube, flags, file);
    let text = Text {
        flags,
        file,
        outcome,
    };
    write_pieces(to, &mut out, text)
}

// Writes a text: its pieces, in their order.
fn write_pieces<W: Write>(to: &mut W, out: &mut [u8], text: Text) -> io::Result<()>
    requires { IsMemory out.old }
    ensures { OnOk result (Appends (W.contents to.old) (W.contents to.new) (printed text.entry.flags.now text.entry.file.now text.entry.outcome)) }
{
    for k in 0..text.count() {
        let end = text.piece(out, k);
        to.write_all(&out[..end])?;
    }
    Ok(())
}
