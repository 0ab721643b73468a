// The calls on cubes.
ghost use Rattle.field.specs.Field.{reduction};
ghost use Rattle.data.specs.Calls.{ExtractOutcome};
ghost use Rattle.cube.specs.Calls.{EncodeOutcome, CheckOutcome};
ghost use Rattle.fill.specs.Fill.{FillOutcome};
ghost use Rattle.mend.specs.Mend.{AxisOutcome, MendOutcome};
ghost use Rattle.jibrufath.specs.Exports.{shape, Exported, uncounted, truth, cells_left};

use shape::Shape;

// Leaves in `cube` the one code cube that has the data string.
#[unsafe(no_mangle)]
pub extern "C" fn jibrufath_encode(
    data: &[u8],
    cube: &mut [u8],
    l1: usize,
    l2: usize,
    l3: usize,
    w: usize,
) -> u64
    ensures { Exported uncounted (EncodeOutcome reduction (shape l1 l2 l3 w) «data».now cube.old cube.new) result }
{
    let sh = Shape { l1, l2, l3, w };
    crate::answer_word(cube::encode(data, cube, sh))
}

// Takes the data string out of a cube, whether or not that is a code cube.
#[unsafe(no_mangle)]
pub extern "C" fn jibrufath_extract(
    cube: &[u8],
    data: &mut [u8],
    l1: usize,
    l2: usize,
    l3: usize,
    w: usize,
) -> u64
    ensures { Exported uncounted (ExtractOutcome (shape l1 l2 l3 w) cube.now «data».old «data».new) result }
{
    let sh = Shape { l1, l2, l3, w };
    crate::answer_word(data::extract(cube, data, sh))
}

// Gives every missing cell the bytes that the lines force. The count is the number of cells left.
#[unsafe(no_mangle)]
pub extern "C" fn jibrufath_fill(
    cube: &mut [u8],
    flags: &mut [u8],
    l1: usize,
    l2: usize,
    l3: usize,
    w: usize,
) -> u64
    ensures { Exported cells_left (FillOutcome reduction (shape l1 l2 l3 w) cube.old flags.old cube.new flags.new) result }
{
    let sh = Shape { l1, l2, l3, w };
    crate::size_word(fill::fill(cube, flags, sh))
}

// One pass along an axis: on each line, in each layer, the one wrong byte that the two sums point to is put right.
#[unsafe(no_mangle)]
pub extern "C" fn jibrufath_mend_axis(
    cube: &mut [u8],
    l1: usize,
    l2: usize,
    l3: usize,
    w: usize,
    axis: usize,
) -> u64
    ensures { Exported uncounted (AxisOutcome reduction (shape l1 l2 l3 w) axis cube.old cube.new) result }
{
    let sh = Shape { l1, l2, l3, w };
    crate::answer_word(mend::mend_axis(cube, sh, axis))
}

// Passes along axes 1, 2 and 3. Leaves in `second` what they lead to, if that is a code cube, else 00h.
#[unsafe(no_mangle)]
pub extern "C" fn jibrufath_mend(
    cube: &[u8],
    flags: &[u8],
    second: &mut [u8],
    l1: usize,
    l2: usize,
    l3: usize,
    w: usize,
) -> u64
    ensures { Exported uncounted (MendOutcome reduction (shape l1 l2 l3 w) cube.now flags.now second.old second.new) result }
{
    let sh = Shape { l1, l2, l3, w };
    crate::answer_word(mend::mend(cube, flags, second, sh))
}

// Whether the bytes are a code cube: the count is 1 where they are, 0 where not.
#[unsafe(no_mangle)]
pub extern "C" fn jibrufath_is_code_cube(
    cube: &[u8],
    l1: usize,
    l2: usize,
    l3: usize,
    w: usize,
) -> u64
    ensures { Exported truth (CheckOutcome reduction (shape l1 l2 l3 w) cube.now) result }
{
    let sh = Shape { l1, l2, l3, w };
    crate::size_word(cube::is_code_cube(cube, sh).map(|code| usize::from(code)))
}
