//! Instruction words as text.

ghost use Rattle.std.specs.Prelude.{◌≡◌, ◌++◌, OnOk};
ghost use Rattle.rv_text.specs.Words.{word_text};

use number_text::{push_hex4, push_hex8};
use std::alloc::AllocError;

/// Appends the digits of an instruction word of this length: four for two bytes, else eight.
pub fn push_word(text: &mut Vec<u8>, word: u32, length: u8) -> Result<(), AllocError>
    ensures { OnOk result (text.new.items ≡ text.old.items ++ word_text word length) }
{
    if length == 2 {
        push_hex4(text, word)
    } else {
        push_hex8(text, word)
    }
}
