// What is peeled. It stands apart from its methods, whose contracts name it: a ghost field may not import what leads back to its struct.
ghost use Rattle.peel.specs.Peel.{Sized};

use shape::Shape;

// A cube that is being peeled, its flags, and the marks of its lines. `Calm` is no ghost field: it does not hold between the mark of a group and the visit of
// its lines.
#[derive(Drop)]
pub(crate) struct Peeling<'a> {
    pub(crate) cube: &'a mut [u8],
    pub(crate) flags: &'a mut [u8],
    pub(crate) marks: [u8; 24576],
    pub(crate) shape: Shape,
    ghost sized: { Sized shape cube.now flags.now },
}
