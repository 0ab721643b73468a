// The encoder: the data rows with the parity of axis 3, then the parity of axes 2 and 1 plane by plane while a plane is in the cache. The reduction byte is a
// parameter: `encoded` and its laws are over each that is primitive.
ghost use Rattle.std.specs.Prelude.{◌≡◌, ◌-◌, length, get_or};
ghost use Rattle.field.specs.Field.{Primitive};
ghost use Rattle.shape.specs.Shapes.{Valid, capacity};
ghost use Rattle.data.specs.Data.{IsCube, held_data};
ghost use Rattle.cube.specs.Encoded.{encoded};
ghost use Rattle.cube.specs.Inner.Encoder.{plane_bytes, RowsCompleted, PlaneCode, PlanesCoded, RowsEncoded, AcrossCompleted};

use line::Run;
use shape::Shape;

// Writes the code cube of a data string, both of their exact lengths.
pub(crate) fn encode_cube(data: &[u8], cube: &mut [u8], reduction: u8, sh: Shape)
    requires { IsCube sh cube.old × (length «data».now ≡ capacity sh) × Primitive reduction }
    ensures { cube.new ≡ encoded reduction sh «data».now }
{
    encode_rows(data, cube, reduction, sh);
    encode_planes(cube, reduction, sh);
}

// Writes the parity of the data that stands in the cube: the same, but for the data rows, which stay where they are.
pub(crate) fn complete_cube(cube: &mut [u8], reduction: u8, sh: Shape)
    requires { IsCube sh cube.old × Primitive reduction }
    ensures { cube.new ≡ encoded reduction sh (held_data sh cube.old) }
{
    complete_across(cube, reduction, sh);
    encode_planes(cube, reduction, sh);
}

// Axis 3: the data rows with the same b, one in each plane, and their parity rows in the last two planes. A run is written out in each turn: two that
// differ in their first byte alone are no shorter with the others taken over.
fn encode_rows(data: &[u8], cube: &mut [u8], reduction: u8, sh: Shape)
    requires { IsCube sh cube.old × (length «data».now ≡ capacity sh) × Primitive reduction }
    ensures { RowsEncoded reduction sh (sh.l2 - 2) «data».now cube.new }
{
    let Shape { l1, l2, l3, w } = sh;
    let row = l1 * w;
    let width = (l1 - 2) * w;
    let rows = l2 - 2;
    for b in 0..rows {
        let from = Run {
            first: b * width,
            stride: rows * width,
            len: l3 - 2,
            width,
        };
        let to = Run {
            first: b * row,
            stride: l2 * row,
            len: l3,
            width,
        };
        line::encode(data, cube, reduction, from, to);
    }
}

// The parity of axis 3 on the data rows that stand in the cube.
fn complete_across(cube: &mut [u8], reduction: u8, sh: Shape)
    requires { IsCube sh cube.old × Primitive reduction }
    ensures { AcrossCompleted reduction sh (sh.l2 - 2) cube.old cube.new }
{
    let Shape { l1, l2, l3, w } = sh;
    let row = l1 * w;
    let width = (l1 - 2) * w;
    // `as`, here and below: there is no From of usize for u8, and a length is at most 255.
    let e = line::erasures_at(reduction, (l3 - 2) as u8, (l3 - 1) as u8);
    for b in 0..l2 - 2 {
        let run = Run {
            first: b * row,
            stride: l2 * row,
            len: l3,
            width,
        };
        line::solve(cube, reduction, run, e);
    }
}

// Lends each plane, a run of bytes inside the cube, to be written with its parity.
fn encode_planes(cube: &mut [u8], reduction: u8, sh: Shape)
    requires { IsCube sh cube.old × Primitive reduction }
    ensures { PlanesCoded reduction sh sh.l3 cube.old cube.new }
{
    let plane = sh.l1 * sh.l2 * sh.w;
    for c in 0..sh.l3 {
        // Not chunks_exact_mut: std does not say what a slice holds when its chunks have been written.
        let at = c * plane;
        let end = at + plane;
        encode_plane(&mut cube[at..end], reduction, sh);
    }
}

// One plane whose data cells are in place: the parity of axis 2 on the data columns, then that of axis 1 on every row.
fn encode_plane(plane: &mut [u8], reduction: u8, sh: Shape)
    requires { Valid sh × (length plane.old ≡ plane_bytes sh) × Primitive reduction }
    ensures { PlaneCode reduction sh (λ p. get_or plane.old p 0) (λ p. get_or plane.new p 0) }
{
    let Shape { l1, l2, w, .. } = sh;
    let run = Run {
        first: 0,
        stride: l1 * w,
        len: l2,
        width: (l1 - 2) * w,
    };
    let e = line::erasures_at(reduction, (l2 - 2) as u8, (l2 - 1) as u8);
    line::solve(plane, reduction, run, e);
    complete_rows(plane, reduction, sh);
}

// The parity of axis 1 on every row of a plane.
fn complete_rows(plane: &mut [u8], reduction: u8, sh: Shape)
    requires { Valid sh × (length plane.old ≡ plane_bytes sh) × Primitive reduction }
    ensures { RowsCompleted reduction sh.l1 sh.w sh.l2 plane.old plane.new }
{
    let Shape { l1, l2, w, .. } = sh;
    let row = l1 * w;
    let e = line::erasures_at(reduction, (l1 - 2) as u8, (l1 - 1) as u8);
    for b in 0..l2 {
        let run = Run {
            first: b * row,
            stride: w,
            len: l1,
            width: w,
        };
        line::solve(plane, reduction, run, e);
    }
}
