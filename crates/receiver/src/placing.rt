// Placing packets: every cell that is sent starts missing, its first packet makes it known, and a copy with other bytes makes it missing for good.
ghost use Rattle.std.specs.Prelude.{◌≡◌, true, false, ◌*◌, ◌≤◌, ◌<◌, length};
ghost use Rattle.span.specs.Span.{Copied, BothInside};
ghost use Rattle.shape.specs.Shapes.{Valid, cells, data_cells};
ghost use Rattle.data.specs.Data.{IsCube};
ghost use Rattle.shape.specs.Inner.Marks.{is_marked, Remarked};
ghost use Rattle.stopping.specs.Stopping.{number};
ghost use Rattle.pack.specs.Packets.{Source, Named};
ghost use Rattle.receiver.specs.Placing.{repeats_of, Placed};
ghost use Rattle.receiver.specs.Gathering.{counts_of};
ghost use Rattle.receiver.specs.Inner.Placing.{sequence, AllNamed, Placeable, Marked, Tried, Run, Stops};

use crate::Counts;
use pack::{Header, Packets};
use shape::{Shape, flags};

// Places all packets, and counts them.
pub(crate) fn place(packets: &Packets, cube: &mut [u8], flags: &mut [u8]) -> Counts
    requires { let k = packets.now in AllNamed k × IsCube k.header.shape cube.old × (length flags.old ≡ cells k.header.shape)
        × (k.header.used ≤ data_cells k.header.shape) }
    ensures { let k = packets.now in Placed k.header (sequence k) k.section.count cube.new flags.new
        × (result ≡ counts_of k.header.shape (sequence k)) }
{
    begin(cube, flags, packets.header);
    let repeats = place_packets(packets, cube, flags);
    let conflicts = if repeats == 0 { 0 } else { settle(flags) };
    Counts {
        packets: packets.section.count,
        repeats,
        conflicts,
    }
}

// What stands before any packet: cells that are sent are missing, unsent ones are known and 00h. The flags are a cube of single bytes, so one call
// finds the unsent cells in both.
fn begin(cube: &mut [u8], flags: &mut [u8], h: Header)
    requires { IsCube h.shape cube.old × (length flags.old ≡ cells h.shape) × (h.used ≤ data_cells h.shape) }
    ensures { (s : Source) → Marked h s 0 cube.new flags.new }
{
    let sh = h.shape;
    flags.fill(flags::MISSING);
    // Both have the lengths of their shapes, so that neither call refuses.
    let _ = data::set_data(flags, Shape { w: 1, ..sh }, h.used, flags::UNSENT);
    let _ = data::set_data(cube, sh, h.used * sh.w, 0);
}

// Places one packet after another; the answer is the repeats. While packets are placed a flag is `MISSING` where none came, `KNOWN` where all that came
// are equal, `MARKED` where two differ, and `UNSENT` where the cell is unsent. First packets and repeats mostly come in long runs, so each have a loop of
// their own.
fn place_packets(packets: &Packets, cube: &mut [u8], flags: &mut [u8]) -> usize
    requires { Placeable packets.now 0 cube.old flags.old }
    ensures { let k = packets.now in Marked k.header (sequence k) k.section.count cube.new flags.new × (result ≡ repeats_of (sequence k) k.section.count) }
{
    let n = packets.section.count;
    let mut repeats = 0;
    // A turn goes over a run of packets, not over one.
    let mut i = place_new(packets, cube, flags, 0);
    while i < n {
        let j = place_repeats(packets, cube, flags, i);
        repeats += j - i;
        i = place_new(packets, cube, flags, j);
    }
    repeats
}

// Places packets from one on, up to the first repeat, and answers where this run ends and the next begins: an end, as the count is, and no number for none.
// The loop is told whether cells are single bytes, so that the compiler makes two of it: of a single byte the copy of a span would cost more than all else.
fn place_new(packets: &Packets, cube: &mut [u8], flags: &mut [u8], from: usize) -> usize
    requires { Placeable packets.now from cube.old flags.old }
    ensures { let k = packets.now in Run k.header (sequence k) k.section.count from result cube.new flags.new 0
        × Stops (sequence k) k.section.count result true }
{
    if packets.header.shape.w == 1 {
        place_firsts::<true>(packets, cube, flags, from)
    } else {
        place_firsts::<false>(packets, cube, flags, from)
    }
}

// No `find`: a closure over the lent cube and flags had to say all that the contract says. Cube, flags and packets stay apart in all of these for the reason
// that `peel` has: once a method lends a slice of its struct, its length alone is known.
fn place_firsts<const SINGLE: bool>(
    packets: &Packets,
    cube: &mut [u8],
    flags: &mut [u8],
    from: usize,
) -> usize
    requires placeable { Placeable packets.now from cube.old flags.old }
    requires w_value { SINGLE ≡ true → packets.now.header.shape.w ≡ 1 }
    ensures { let k = packets.now in Run k.header (sequence k) k.section.count from result cube.new flags.new 0
        × Stops (sequence k) k.section.count result true }
{
    // A copy, whose fields stay in registers while cells and flags are written; so in `place_repeats`.
    let own = *packets;
    let n = own.section.count;
    for i in from..n {
        if !place_first::<SINGLE>(&own, cube, flags, i) {
            return i;
        }
    }
    n
}

// Places the first packet of a cell. False, and nothing changed, where a copy came before: a test of one packet, whose index its caller has.
fn place_first<const SINGLE: bool>(
    packets: &Packets,
    cube: &mut [u8],
    flags: &mut [u8],
    i: usize,
) -> bool
    requires valid { let k = packets.now in Valid k.header.shape × Named k.bytes.now k.header k.section i × Marked k.header (sequence k) i cube.old flags.old }
    requires w_value { SINGLE ≡ true → packets.now.header.shape.w ≡ 1 }
    ensures { Tried packets.now.header (sequence packets.now) i cube.old flags.old cube.new flags.new 0 true result }
{
    let Some((m, from)) = packets.packet(i) else {
        return false;
    };
    if flags[m] != flags::MISSING {
        return false;
    }
    put::<SINGLE>(packets.bytes, cube, from, m, packets.header.shape.w);
    flags[m] = flags::KNOWN;
    true
}

// Copies a packet's bytes to cell m. A single byte is copied by itself: the call for a span would cost more than all else.
fn put<const SINGLE: bool>(air: &[u8], cube: &mut [u8], from: usize, m: usize, w: usize)
    requires { BothInside air.now from cube.old (m * w) w × (SINGLE ≡ true → w ≡ 1) }
    ensures { Copied air.now from cube.old (m * w) w cube.new }
{
    if SINGLE {
        cube[m] = air[from];
    } else {
        span::copy(air, cube, from, m * w, w);
    }
}

// Goes through repeats from one on, up to the first packet of a cell, and answers where this run ends. It differs from `place_firsts` in the step that it
// takes: one loop for both would be given the step as a closure over the lent cube and flags, which had to say all that the two contracts say.
fn place_repeats(packets: &Packets, cube: &mut [u8], flags: &mut [u8], from: usize) -> usize
    requires { Placeable packets.now from cube.old flags.old }
    ensures { let k = packets.now in Run k.header (sequence k) k.section.count from result cube.new flags.new 1
        × Stops (sequence k) k.section.count result false }
{
    let own = *packets;
    let n = own.section.count;
    for i in from..n {
        if !place_repeat(&own, cube, flags, i) {
            return i;
        }
    }
    n
}

// Compares a repeat with the bytes of its cell, and marks the cell where they differ, which nothing takes back. False, and nothing changed, where
// no copy came before.
fn place_repeat(packets: &Packets, cube: &mut [u8], flags: &mut [u8], i: usize) -> bool
    requires { let k = packets.now in Valid k.header.shape × Named k.bytes.now k.header k.section i × Marked k.header (sequence k) i cube.old flags.old }
    ensures { Tried packets.now.header (sequence packets.now) i cube.old flags.old cube.new flags.new 1 false result }
{
    let w = packets.header.shape.w;
    let Some((m, from)) = packets.packet(i) else {
        return false;
    };
    if flags[m] == flags::MISSING {
        return false;
    }
    if span::same(packets.bytes, cube, from, m * w, w) {
        return true;
    }
    flags[m] = flags::MARKED;
    true
}

// Makes the marked cells missing; the answer is their number. A filter whose count writes as it goes would be no plainer. `fill` gives marked cells a flag
// too, and counts others behind it: each is one loop of its crate.
fn settle(flags: &mut [u8]) -> usize
    ensures remarked { Remarked 1 flags.old flags.new }
    ensures value { result ≡ number (is_marked flags.old) (length flags.old) }
{
    let mut conflicts = 0;
    for flag in flags.iter_mut() {
        if *flag == flags::MARKED {
            *flag = flags::MISSING;
            conflicts += 1;
        }
    }
    conflicts
}
