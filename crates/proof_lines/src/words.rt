//! The reader of a row's words.

ghost use Rattle.std.specs.Prelude.{◌≤◌};
ghost use Rattle.report_lines.specs.Parts.{parts_of};
ghost use Rattle.proof_lines.specs.Words.{AreWordsRead, IsWordReading};

use numeral_read::{read_dec, read_hex};
use proof_text::WordAt;
use report_lines::cut_at;
use sqlite_items::Items;
use std::alloc::{AllocError, Global};

/// The words of a row of so many words, by what stands between the spaces of the text.
pub fn read_words(
    alloc: Global,
    width: u64,
    text: &[u8],
) -> Result<Option<Items<WordAt>>, AllocError>
    requires { width ≤ 512 }
    ensures { AreWordsRead width (parts_of 32 text.now) result }
{
    let mut words = Items::new(alloc);
    let mut least = 0u64;
    let mut rest = text;
    while let Some((part, behind)) = cut_at(b' ', rest) {
        match read_word(least, width, part) {
            None => return Ok(None),
            Some(word) => {
                least = u64::from(word.position) + 1;
                words.push(word)?;
                rest = behind;
            }
        }
    }
    match read_word(least, width, rest) {
        None => Ok(None),
        Some(word) => {
            words.push(word)?;
            Ok(Some(words))
        }
    }
}

// A word that isn't 0 behind its position, which is at least `least` and below `width`.
fn read_word(least: u64, width: u64, text: &[u8]) -> Option<WordAt>
    requires { width ≤ 512 }
    ensures { IsWordReading least width text.now result }
{
    let Some((number, behind)) = cut_at(b':', text) else {
        return None;
    };
    match read_dec(number) {
        None => None,
        Some(position) => match read_hex(behind) {
            None => None,
            Some(word) => {
                if position < least || width <= position || word == 0 {
                    return None;
                }
                let position = position as u16;
                Some(WordAt { position, word })
            }
        },
    }
}
