// The calls that say how much memory a shape's calls are lent.
ghost use Rattle.std.specs.Prelude.{◌≡◌};
ghost use Rattle.answer.specs.Values.{checked};
ghost use Rattle.shape.specs.Shapes.{shape_checked};
ghost use Rattle.pack_writer.specs.Writing.{size_checked};
ghost use Rattle.jibrufath.specs.Exports.{shape, packed};

use crate::size_word;
use shape::Shape;

// The cells of a cube, and so the bytes of its flags.
#[unsafe(no_mangle)]
pub extern "C" fn jibrufath_cells(l1: usize, l2: usize, l3: usize, w: usize) -> u64
    ensures { result ≡ packed (λ z. z.cells) (checked (shape_checked (shape l1 l2 l3 w))) }
{
    size_word(shape::measure(Shape { l1, l2, l3, w }).map(|z| z.cells))
}

// The bytes of a cube.
#[unsafe(no_mangle)]
pub extern "C" fn jibrufath_cube_bytes(l1: usize, l2: usize, l3: usize, w: usize) -> u64
    ensures { result ≡ packed (λ z. z.bytes) (checked (shape_checked (shape l1 l2 l3 w))) }
{
    size_word(shape::measure(Shape { l1, l2, l3, w }).map(|z| z.bytes))
}

// The bytes of a data string; a file buffer has 4 less.
#[unsafe(no_mangle)]
pub extern "C" fn jibrufath_capacity(l1: usize, l2: usize, l3: usize, w: usize) -> u64
    ensures { result ≡ packed (λ z. z.capacity) (checked (shape_checked (shape l1 l2 l3 w))) }
{
    size_word(shape::measure(Shape { l1, l2, l3, w }).map(|z| z.capacity))
}

// The bytes of the pack that the writer writes.
#[unsafe(no_mangle)]
pub extern "C" fn jibrufath_pack_bytes(l1: usize, l2: usize, l3: usize, w: usize) -> u64
    ensures { result ≡ packed (λ n. n) (checked (size_checked (shape l1 l2 l3 w))) }
{
    size_word(pack_writer::pack_bytes(Shape { l1, l2, l3, w }))
}
