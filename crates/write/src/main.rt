// Write: reads a job pack on standard input and writes the air pack of its file, or says why not.
#![tactic(auto)]

ghost use Rattle.std.specs.Prelude.{◌≡◌, ◌≤◌, length, take, OnOk};
ghost use Rattle.io.specs.Counts.{IsPrefixLen};
ghost use Rattle.answer.specs.Values.{passes};
ghost use Rattle.pack.specs.declared.Section.{Section};
ghost use Rattle.pack.specs.Reading.{job_of};
ghost use Rattle.write.specs.Prints.{Prints};
ghost use Rattle.write.specs.Writes.{Writes};

use pack::{Header, Section};
use printing::LIMIT;
use std::alloc::Global;
use std::io;
use std::io::{Read, Write};

fn main(rt: HostRuntime) -> io::Result<()> {
    run(rt.alloc(), rt.stdin(), &mut rt.stdout())
}

// Reads an input and writes what the program prints for it. One byte more than an input may have is read, so that a longer one is told. The program
// `receive` reads in the same two lines; what each lends and prints differs. `as`: there is no From of usize for u64.
fn run<R: Read + Drop, W: Write>(alloc: Global, from: R, to: &mut W) -> io::Result<()>
    ensures { OnOk result (Writes (R.remaining from) (W.contents to.old) (W.contents to.new)) }
{
    let mut input = Vec::new(alloc);
    from.take(LIMIT as u64 + 1).read_to_end(&mut input)?;
    let mut cube = vec![in alloc; 0u8; LIMIT]?;
    let mut buffer = vec![in alloc; 0u8; LIMIT]?;
    let output = buffer.as_mut_slice();
    let end = print(&input, &mut cube, output);
    to.write_all(&output[..end])
}

// Puts what the program prints for an input at the start of `output`, and answers where it ends: the slice up to it would keep `output` lent. A Vec's slice
// becomes an array of 65,536 bytes only by a call that may refuse, so that the lengths are asked here and in `print_pack`.
fn print(job: &[u8], cube: &mut [u8], output: &mut [u8]) -> usize
    requires { (length cube.old ≡ 65536) × (length output.old ≡ 65536) }
    ensures prefix_len { IsPrefixLen result output.new }
    ensures prints { Prints job.now (take result output.new) }
{
    if job.len() > LIMIT {
        return printing::append(output, 0, b"too big\n");
    }
    match pack::read_job(job) {
        Err(f) => printing::append_refused(output, 0, answer::number(f)),
        Ok((h, _)) => print_pack(job, cube, output, h),
    }
}

// The same for a job that passes the checks down to 8: the pack of its cells that are sent, in memory of the exact lengths. Unsent cells can make the
// pack smaller than its cube, so both are compared.
fn print_pack(job: &[u8], cube: &mut [u8], output: &mut [u8], h: Header) -> usize
    requires { (length cube.old ≡ 65536) × (length output.old ≡ 65536) × (length job.now ≤ 65536)
        × ((s : Section) × (job_of job.now ≡ passes (h, s))) }
    ensures prefix_len { IsPrefixLen result output.new }
    ensures prints { Prints job.now (take result output.new) }
{
    let bytes = h.sizes.bytes;
    // A header that was read has a size.
    let Ok(size) = pack_writer::written_bytes(h) else {
        return 0;
    };
    if bytes > LIMIT || size > LIMIT {
        return printing::append(output, 0, b"too big\n");
    }
    // With exact lengths nothing is refused.
    let _ = writer::write_pack(job, &mut cube[..bytes], &mut output[..size]);
    size
}
