//! The procedure that a word chooses.

ghost use Rattle.std.specs.Prelude.{◌≡◌, ℕ, MatchOption};
ghost use Rattle.std.specs.Str.{bytes_eq};
ghost use Rattle.affine_lift.specs.Tracking.{IsPlace, value_of};
ghost use Rattle.abi_answers.specs.Answers.{IsEntry, HasNoEntry};

use elf_image::{Image, Symbol};
use entry_tables::has_code;
use numeral_read::read_address;

/// The address of the procedure that a word chooses: the word's own, or the value of the first symbol of this name.
pub(crate) fn entry_of(image: &Image, word: &str) -> Option<u64>
    ensures { MatchOption result (HasNoEntry image.now word.now) (IsEntry image.now word.now) }
{
    match place_of(word, image.symbols.as_slice()) {
        Some(a) => { if has_code(image, a) { Some(a) } else { None } }
        None => None,
    }
}

fn place_of(text: &str, symbols: &[Symbol]) -> Option<u64>
    ensures { MatchOption result ((p : ℕ) → IsPlace symbols.now text.now p → ⊥) (IsPlace symbols.now text.now) }
{
    match read_address(text) {
        Some(address) => Some(address),
        None => value_of(symbols, text),
    }
}

fn value_of(symbols: &[Symbol], text: &str) -> Option<u64>
    ensures { result ≡ value_of symbols.now text.now }
{
    let symbol = symbols.iter().find(|s| is_named(s, text))?;
    Some(symbol.value)
}

fn is_named(symbol: &Symbol, text: &str) -> bool
    ensures { result ≡ bytes_eq symbol.now.name text.now }
{
    symbol.name.as_slice() == text.as_bytes()
}
