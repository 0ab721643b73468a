// The call on a line.
ghost use Rattle.erasures.specs.Scan.{scan_of};
ghost use Rattle.jibrufath.specs.Exports.{shape};
ghost use Rattle.jibrufath.specs.Lines.{ScanExport};

use shape::Shape;

// Scans a line of an axis up to its third erasure. The counts are the erasures found and the places read; both 0 with a refusal.
#[unsafe(no_mangle)]
pub extern "C" fn jibrufath_scan(
    flags: &[u8],
    l1: usize,
    l2: usize,
    l3: usize,
    w: usize,
    axis: usize,
    line: usize,
    counts: &mut [u64; 2],
) -> u64
    ensures { ScanExport (scan_of flags.now (shape l1 l2 l3 w) axis line) counts.new result }
{
    let sh = Shape { l1, l2, l3, w };
    match erasures::scan(flags, sh, axis, line) {
        Err(f) => {
            *counts = [0; 2];
            answer::number(f)
        }
        Ok(s) => {
            *counts = [s.erasures as u64, s.read as u64];
            0
        }
    }
}
