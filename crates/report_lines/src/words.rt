//! The words of a relation's line.

ghost use Rattle.std.specs.Prelude.{◌≡◌, ◌≢◌, ℕ, ◌<◌, ◌≤◌, ◌^◌};
ghost use Rattle.report_lines.specs.Parts.{HasNo};
ghost use Rattle.report_lines.specs.Terms.{IsWordOf, IsNumberReading, IsLeadReading, IsUnsignedReading, IsWordReading};

use crate::cutting::cut_at;
use numeral_read::read_dec;

/// A word behind the lead: a multiple of a name, or a constant.
#[derive(Clone, Copy)]
pub enum Word<'a> {
    Multiple(u64, &'a [u8]),
    Constant(u64),
}

/// The lead's word, which has no sign, and its name.
pub fn read_lead(text: &[u8]) -> Option<(u64, &[u8])>
    requires { HasNo 32 text.now }
    ensures { IsLeadReading text.now result }
{
    match read_unsigned(true, text) {
        Some(Word::Multiple(word, name)) => Some((word, name)),
        Some(Word::Constant(_)) => None,
        None => None,
    }
}

/// The multiple or the constant that the text is behind its sign.
pub fn read_word(text: &[u8]) -> Option<Word<'_>>
    requires { HasNo 32 text.now }
    ensures { IsWordReading text.now result }
{
    match text {
        [b'+', rest @ ..] => read_unsigned(true, rest),
        [b'-', rest @ ..] => read_unsigned(false, rest),
        _ => None,
    }
}

fn read_unsigned(plus: bool, text: &[u8]) -> Option<Word<'_>>
    requires { HasNo 32 text.now }
    ensures { IsUnsignedReading plus text.now result }
{
    match cut_at(b'*', text) {
        Some((number, name)) => {
            if name.is_empty() {
                return None;
            }
            match read_number(plus, number) {
                None => None,
                Some(word) => Some(Word::Multiple(word, name)),
            }
        }
        None => match read_number(plus, text) {
            None => None,
            Some(word) => Some(Word::Constant(word)),
        },
    }
}

// The word of a magnitude behind `+` or `-`.
fn read_number(plus: bool, text: &[u8]) -> Option<u64>
    ensures { IsNumberReading plus text.now result }
{
    match read_dec(text) {
        None => None,
        Some(n) => word_of(plus, n),
    }
}

// The word that is written with this magnitude behind `+` or `-`.
fn word_of(plus: bool, n: u64) -> Option<u64>
    ensures { IsWordOf plus n result }
{
    if n == 0 {
        None
    } else if plus && n <= 1 << 63 {
        Some(n)
    } else if !plus && n < 1 << 63 {
        Some(u64::MAX - (n - 1))
    } else {
        None
    }
}
