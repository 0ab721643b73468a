// Writing packs, each part from the byte where the one before ended: the bytes that a pack needs, the air pack of every cell of a cube that is sent, and one
// of any packets part by part.
#![tactic(auto)]

mod air;
mod writing;

pub use air::{air_bytes, start_air, write_coordinates};
use answer::Refusal;
use cursor::Cursor;
pub use writing::{pack_bytes, slices_fit, write_air, written_bytes};
