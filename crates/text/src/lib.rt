// The text of an air pack (request P1): its form, a line for the shape and one for each packet, and its reader.
#![tactic(auto)]

mod lines;
mod numbers;
mod reader;
mod scan;

pub use reader::{read_text, text_pack_bytes};
