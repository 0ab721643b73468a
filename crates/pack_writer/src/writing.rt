// Writing an air pack of every cell of a cube that is sent: each part from the byte where the one before ended.
ghost use Rattle.std.specs.Prelude.{◌≡◌, ◌++◌, ◌+◌, ◌-◌, ◌*◌, ◌≤◌, ◌<◌, length};
ghost use Rattle.answer.specs.Values.{value_of, checked};
ghost use Rattle.span.specs.Span.{Put};
ghost use Rattle.shape.specs.Shapes.{Valid, cells};
ghost use Rattle.stopping.specs.Stopping.{number};
ghost use Rattle.cursor.specs.Steps.{word_bytes};
ghost use Rattle.pack.specs.Packs.{shape_bytes, packet_bytes, packets, packet_of, sends, sent_packets, air_pack, pack_size};
ghost use Rattle.pack.proofs.Sound.{HeaderSent};
ghost use Rattle.pack_writer.specs.Writing.{size_checked, written_checked, air_checked, AirOutcome, Laid};
ghost use Rattle.pack_writer.specs.Inner.Writing.{packets_from, row_sent, IsCell};

use crate::air::{put_head, write_coordinates};
use answer::{Fault, Refusal};
use cursor::{Cursor, count_bytes};
use pack::Header;
use shape::Shape;

// The bytes of the pack that holds every cell, with count 5.
pub fn pack_bytes(sh: Shape) -> Result<usize, Refusal>
    ensures { value_of result ≡ checked (size_checked sh) }
{
    let z = shape::measure(sh)?;
    Ok(size_of(5, z.cells, sh.w))
}

// The bytes of the pack that the writer writes with a header.
pub fn written_bytes(h: Header) -> Result<usize, Refusal>
    ensures { value_of result ≡ checked (written_checked h) }
{
    let n = pack::sent_cells(h)?;
    Ok(size_of(h.count, n, h.shape.w))
}

// Writes the air pack of every cell of the cube that is sent, in cell order, over the whole of `out`.
pub fn write_air(cube: &[u8], out: &mut [u8], h: Header) -> Result<(), Refusal>
    ensures { AirOutcome h cube.now out.old out.new (value_of result) }
{
    slices_fit(h, cube.len(), out.len())?;
    write_sections(cube, out, h);
    Ok(())
}

// The checks of a call that is lent a cube and the pack of its cells.
pub fn slices_fit(h: Header, bytes: usize, output: usize) -> Result<(), Refusal>
    ensures { value_of result ≡ checked (air_checked h bytes output) }
{
    let size = written_bytes(h)?;
    let z = shape::measure(h.shape)?;
    if bytes != z.bytes || output != size {
        return Err(Refusal::Plain(Fault::SliceLength));
    }
    Ok(())
}

// The bytes of an air pack with so many packets of w bytes, whose section 1 has this count.
pub(crate) fn size_of(count: usize, packets: usize, w: usize) -> usize
    requires { (count ≤ 9) × (packets < 4294967296) × (w ≤ 1024) }
    ensures { result ≡ 12 + count + packets * (3 + w) }
{
    let packet = 3 + w;
    12 + count + packets * packet
}

// The three sections. What `requires` says of the header leaves `sent_cells` no refusal, so none is answered. The cube's length stands written out from here
// on: `HeaderSent` says that the shape is valid, and with `IsCube` that would be asked twice.
fn write_sections(cube: &[u8], out: &mut [u8], h: Header)
    requires { HeaderSent h × (length cube.now ≡ h.shape.w * cells h.shape) × (length out.old ≡ pack_size h) }
    ensures { out.new ≡ air_pack h (sent_packets h cube.now) }
{
    let Ok(n) = pack::sent_cells(h) else {
        return;
    };
    let first = put_head(out, h.shape, h.count, h.used, n);
    put_rows(cube, out, first, h);
}

// A count, four bytes, low first.
pub(crate) fn put_count(c: Cursor, out: &mut [u8], n: usize) -> Cursor
    requires { c.at + 4 ≤ length out.old }
    ensures { Laid out.old c (word_bytes n) out.new result }
{
    put_bytes(c, out, &count_bytes(n))
}

// The first five bytes of section 1.
pub(crate) fn put_shape(out: &mut [u8], c: Cursor, sh: Shape) -> Cursor
    requires { Valid sh × (c.at + 5 ≤ length out.old) }
    ensures { Laid out.old c (shape_bytes sh) out.new result }
{
    let [low, high, ..] = sh.w.to_le_bytes();
    // `as`, here and below: there is no From of usize for u8, and lengths and coordinates are below 256.
    let bytes = [sh.l1 as u8, sh.l2 as u8, sh.l3 as u8, low, high];
    put_bytes(c, out, &bytes)
}

// So many bytes. The cursor and the slice are handed on as two: what a call answers, and its caller keeps, is the cursor alone.
fn put_bytes(c: Cursor, out: &mut [u8], bytes: &[u8]) -> Cursor
    requires { c.at + length bytes.now ≤ length out.old }
    ensures { Laid out.old c bytes.now out.new result }
{
    let at = c.at;
    let n = bytes.len();
    span::copy(bytes, out, 0, at, n);
    Cursor { at: at + n }
}

// A header and a cube that are read, a slice that is written and its cursor go on together from here; `HeaderSent` names what is asked of the header.
// The packets of every cell that is sent, row by row: the unsent cells of a row stand together, so they cost nothing each. A row is one number, and no pair
// of loops over b and c: the law of `row_sent` goes by it.
fn put_rows(cube: &[u8], out: &mut [u8], c: Cursor, h: Header)
    requires { HeaderSent h × (length cube.now ≡ h.shape.w * cells h.shape)
        × (c.at + number (sends h) (cells h.shape) * (3 + h.shape.w) ≤ length out.old) }
    ensures { Put out.old c.at (packets (sent_packets h cube.now)) out.new }
{
    let sh = h.shape;
    let mut next = c;
    for q in 0..sh.l2 * sh.l3 {
        next = put_row(cube, out, next, h, q);
    }
}

// The packets of row q: its cells in use, then its two parity cells.
fn put_row(cube: &[u8], out: &mut [u8], c: Cursor, h: Header, q: usize) -> Cursor
    requires { HeaderSent h × (q < h.shape.l2 * h.shape.l3) × (length cube.now ≡ h.shape.w * cells h.shape)
        × (c.at + (row_sent h q + 2) * (3 + h.shape.w) ≤ length out.old) }
    ensures { Laid out.old c (packets (packets_from h.shape cube.now (h.shape.l1 * q) (row_sent h q)
        ++ packets_from h.shape cube.now (h.shape.l1 * q + (h.shape.l1 - 2)) 2)) out.new result }
{
    let sh = h.shape;
    let parity = put_run(cube, out, c, sh, q, 0, row_sent(h, q));
    put_run(cube, out, parity, sh, q, sh.l1 - 2, sh.l1)
}

// How many of a row's first cells are sent.
fn row_sent(h: Header, q: usize) -> usize
    requires { HeaderSent h × (q < h.shape.l2 * h.shape.l3) }
    ensures { (result ≡ row_sent h q) × (result ≤ h.shape.l1 - 2) }
{
    let sh = h.shape;
    let width = sh.l1 - 2;
    let b = q % sh.l2;
    let c = q / sh.l2;
    if sh.l2 - 2 <= b || sh.l3 - 2 <= c {
        return width;
    }
    let before = width * (b + (sh.l2 - 2) * c);
    h.used.saturating_sub(before).min(width)
}

// The packets of the cells from a place of row q on, up to another.
fn put_run(
    cube: &[u8],
    out: &mut [u8],
    c: Cursor,
    sh: Shape,
    q: usize,
    from: usize,
    to: usize,
) -> Cursor
    requires { Valid sh × (q < sh.l2 * sh.l3) × (from ≤ to) × (to ≤ sh.l1) × (length cube.now ≡ sh.w * cells sh)
        × (c.at + (to - from) * (3 + sh.w) ≤ length out.old) }
    ensures { Laid out.old c (packets (packets_from sh cube.now (sh.l1 * q + from) (to - from))) out.new result }
{
    let b = q % sh.l2;
    let c3 = q / sh.l2;
    let mut next = c;
    for a in from..to {
        next = put_packet(cube, out, next, sh, sh.l1 * q + a, a, b, c3);
    }
    next
}

// The packet of cell n, which is (a,b,c): its coordinates, then its bytes. With the row and the place for n, a, b and c each packet was divided for, and
// packets of single bytes took 1.3 times as long to write.
fn put_packet(
    cube: &[u8],
    out: &mut [u8],
    at: Cursor,
    sh: Shape,
    n: usize,
    a: usize,
    b: usize,
    c: usize,
) -> Cursor
    requires { Valid sh × (n < cells sh) × (length cube.now ≡ sh.w * cells sh) × (at.at + (3 + sh.w) ≤ length out.old) × IsCell sh n a b c }
    ensures { Laid out.old at (packet_bytes (packet_of sh cube.now n)) out.new result }
{
    let w = sh.w;
    let cell = write_coordinates(out, at, a as u8, b as u8, c as u8);
    put_bytes(cell, out, &cube[n * w..n * w + w])
}
