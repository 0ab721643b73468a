// Reading a pack: for everybody section 1, for the writer a file, for the receiver packets. Checks in the order of document 01's table.
ghost use Rattle.std.specs.Prelude.{◌≡◌, cond, ℕ, ◌+◌, ◌≤◌, eqb, length};
ghost use Rattle.answer.specs.Values.{value_of, checked};
ghost use Rattle.shape.specs.Shapes.{Valid, within, data_cells};
ghost use Rattle.pack.specs.Reading.{shape_at, given_at, headed, is_count, header_of, sent_checked, job_behind, job_of, air_behind, air_of, plain_air_of};

use crate::{Header, Section};
use answer::{Fault, Refusal};
use cursor::Cursor;
use shape::Shape;

// Section 1 and the shape it holds.
pub fn read_header(pack: &[u8]) -> Result<(Header, Cursor), Refusal>
    ensures { value_of result ≡ checked (header_of pack.now) }
{
    let (n, body) = Cursor { at: 0 }.count(pack)?;
    if !is_count(n) {
        return Err(Refusal::Plain(Fault::HeaderCount));
    }
    let (at, next) = body.bytes(pack, n)?;
    headed(shape_at(pack, at), n, given_at(pack, at, n), next)
}

// The whole pack as the writer reads it.
pub fn read_job(pack: &[u8]) -> Result<(Header, Section), Refusal>
    ensures { value_of result ≡ checked (job_of pack.now) }
{
    let (h, next) = read_header(pack)?;
    job_behind(pack, h, next)
}

// The whole pack as the receiver reads it.
pub fn read_air(pack: &[u8]) -> Result<(Header, Section), Refusal>
    ensures { value_of result ≡ checked (air_of pack.now) }
{
    let (h, next) = read_header(pack)?;
    air_behind(pack, h, next)
}

// The whole pack as the text twin reads it: section 1 has count 5.
pub fn read_plain_air(pack: &[u8]) -> Result<(Header, Section), Refusal>
    ensures { value_of result ≡ checked (plain_air_of pack.now) }
{
    let (n, _) = Cursor { at: 0 }.count(pack)?;
    if n != 5 {
        return Err(Refusal::Plain(Fault::HeaderCount));
    }
    read_air(pack)
}

// How many cells are sent with a header that section 1 can have.
pub fn sent_cells(h: Header) -> Result<usize, Refusal>
    ensures { value_of result ≡ checked (sent_checked h) }
{
    if !is_count(h.count) {
        return Err(Refusal::Plain(Fault::HeaderCount));
    }
    let z = shape::measure(h.shape)?;
    let all = data_cells(h.shape);
    let used = h.used;
    if !in_use(all, used) {
        return Err(Refusal::Plain(Fault::UsedCells));
    }
    Ok(z.cells - (all - used))
}

// Whether section 1 may have this count.
fn is_count(n: usize) -> bool
    ensures { result ≡ is_count n }
{
    n == 5 || n == 9
}

// The first five bytes of section 1.
fn shape_at(pack: &[u8], at: usize) -> Shape
    requires { at + 5 ≤ length pack.now }
    ensures { result ≡ shape_at pack.now at }
{
    Shape {
        l1: usize::from(pack[at]),
        l2: usize::from(pack[at + 1]),
        l3: usize::from(pack[at + 2]),
        w: usize::from(pack[at + 3]) + 256 * usize::from(pack[at + 4]),
    }
}

// The four bytes behind them, where the count is 9.
fn given_at(pack: &[u8], at: usize, n: usize) -> Option<usize>
    requires { at + n ≤ length pack.now }
    ensures { result ≡ cond (eqb n 9) (Some (given_at pack.now at n)) None }
{
    if n != 9 {
        return None;
    }
    let (used, _) = Cursor { at: at + 5 }.count(pack).ok()?;
    Some(used)
}

// The shape's checks, room for the file's length, and the data cells in use, which are all where none are given.
fn headed(
    sh: Shape,
    n: usize,
    given: Option<usize>,
    next: Cursor,
) -> Result<(Header, Cursor), Refusal>
    ensures { (u : ℕ) → given ≡ cond (eqb n 9) (Some u) None → value_of result ≡ checked (headed sh n u next) }
{
    let z = shape::measure(sh)?;
    if z.capacity < 4 {
        return Err(Refusal::Plain(Fault::Capacity));
    }
    let all = data_cells(sh);
    let used = given.unwrap_or(all);
    if !in_use(all, used) {
        return Err(Refusal::Plain(Fault::UsedCells));
    }
    let header = Header {
        shape: sh,
        sizes: z,
        count: n,
        used,
    };
    Ok((header, next))
}

// The data cells of a valid shape. A product beside that of `measure`, whose capacity has W in it: one function for both would be public, and asked of
// every shape.
pub(crate) fn data_cells(sh: Shape) -> usize
    requires { Valid sh }
    ensures { result ≡ data_cells sh }
{
    (sh.l1 - 2) * (sh.l2 - 2) * (sh.l3 - 2)
}

// Whether so many data cells can be in use: two comparisons, as `within` has them.
fn in_use(all: usize, used: usize) -> bool
    ensures { result ≡ within 1 all used }
{
    1 <= used && used <= all
}

// The writer's sections 2 and 3, behind the header.
fn job_behind(pack: &[u8], h: Header, second: Cursor) -> Result<(Header, Section), Refusal>
    requires { (h.used ≤ 16777216) × (h.shape.w ≤ 1024) }
    ensures { value_of result ≡ checked (job_behind pack.now h second) }
{
    let (n, file) = second.count(pack)?;
    let sizes = h.sizes;
    if sizes.capacity < 4 + n {
        return Err(Refusal::Plain(Fault::Capacity));
    }
    let sh = h.shape;
    if h.used * sh.w < 4 + n {
        return Err(Refusal::Plain(Fault::UsedCells));
    }
    let (at, third) = file.bytes(pack, n)?;
    let (packets, rest) = third.count(pack)?;
    if packets != 0 {
        return Err(Refusal::Plain(Fault::SectionCount));
    }
    if pack.len() != rest.at {
        return Err(Refusal::Plain(Fault::TrailingBytes));
    }
    Ok((h, Section { at, count: n }))
}

// The receiver's sections 2 and 3, behind the header. The checks 9 and 8 stand here as they do there, one comparison each.
fn air_behind(pack: &[u8], h: Header, second: Cursor) -> Result<(Header, Section), Refusal>
    requires { h.shape.w ≤ 1024 }
    ensures { value_of result ≡ checked (air_behind pack.now h second) }
{
    let (n, third) = second.count(pack)?;
    if n != 0 {
        return Err(Refusal::Plain(Fault::SectionCount));
    }
    let (packets, body) = third.count(pack)?;
    let sh = h.shape;
    let (at, end) = body.bytes(pack, packets * (3 + sh.w))?;
    if pack.len() != end.at {
        return Err(Refusal::Plain(Fault::TrailingBytes));
    }
    Ok((h, Section { at, count: packets }))
}
