//! The numeral of a word.

ghost use Rattle.std.specs.Prelude.{ℕ, MatchOption};
ghost use Rattle.start_registers.specs.Settings.{IsWordText};

use numeral_read::{read_address, read_dec};

/// The word that a text is.
pub fn word_of(text: &str) -> Option<u64>
    ensures { MatchOption result ((w : ℕ) → IsWordText text.now w → ⊥) (IsWordText text.now) }
{
    match read_address(text) {
        Some(word) => Some(word),
        None => read_dec(text.as_bytes()),
    }
}
