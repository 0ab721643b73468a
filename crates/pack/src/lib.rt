// Packs: three sections, each read from the byte where the one before ended. Only this crate and `pack_writer`, whose contracts are made of the definitions
// of this one, know where a byte of a pack stands.
#![tactic(auto)]

mod packets;
mod reading;

pub use packets::Packets;
pub use reading::{read_air, read_header, read_job, read_plain_air, sent_cells};
use shape::{Shape, Sizes};

// A section: its first byte behind its count, and the count.
#[derive(Clone, Copy)]
pub struct Section {
    pub at: usize,
    pub count: usize,
}

// What section 1 holds: the shape, with the sizes that were measured; its count, 5 or 9; and the data cells in use, which are all of them with count 5. The
// count is a number beside them, since `sent_cells`, `written_bytes` and `write_air` answer 7 for every other (`sent_checked`).
#[derive(Clone, Copy)]
pub struct Header {
    pub shape: Shape,
    pub sizes: Sizes,
    pub count: usize,
    pub used: usize,
}
