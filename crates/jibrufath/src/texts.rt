// The calls on texts: the text of an air pack, the air pack of a text, and how much memory each asks for.
ghost use Rattle.std.specs.Prelude.{◌≡◌};
ghost use Rattle.answer.specs.Values.{checked};
ghost use Rattle.text.specs.Text.{WriteTextOutcome, ReadTextOutcome, PackSizeOutcome, text_size_checked};
ghost use Rattle.jibrufath.specs.Exports.{Exported, uncounted, whole, packed};

use crate::{answer_word, size_word};

// Writes the text of an air pack.
#[unsafe(no_mangle)]
pub extern "C" fn jibrufath_write_text(air: &[u8], text: &mut [u8]) -> u64
    ensures { Exported uncounted (WriteTextOutcome air.now text.old text.new) result }
{
    answer_word(text_writer::write_text(air, text))
}

// Reads a text to its air pack.
#[unsafe(no_mangle)]
pub extern "C" fn jibrufath_read_text(text: &[u8], air: &mut [u8]) -> u64
    ensures { Exported uncounted (ReadTextOutcome text.now air.old air.new) result }
{
    answer_word(text::read_text(text, air))
}

// The bytes of the text of an air pack.
#[unsafe(no_mangle)]
pub extern "C" fn jibrufath_text_bytes(air: &[u8]) -> u64
    ensures { result ≡ packed whole (checked (text_size_checked air.now)) }
{
    size_word(text_writer::text_bytes(air))
}

// The bytes of the air pack of a text.
#[unsafe(no_mangle)]
pub extern "C" fn jibrufath_text_pack_bytes(text: &[u8]) -> u64
    ensures { Exported whole (PackSizeOutcome text.now) result }
{
    size_word(text::text_pack_bytes(text))
}
