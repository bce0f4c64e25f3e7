//! Numbers that are read, and lists of texts between commas.
//!
//! [`read_dec`] and [`read_hex`] are the inverse of writing: a text is read exactly where it is the one numeral of a number
//! below 2^64, without zeros in front. [`number_of`] and [`read_address`] take what people type: digits of either case, with
//! zeros in front or without. [`items_between_commas`] cuts a list.
//!
//! ```text
//! read_dec(b"65660") // Some(65660)
//! read_hex(b"0x10078") // Some(0x10078)
//! number_of("0060", 10) // Some(60)
//! read_address("0x1007C") // Some(0x1007c)
//! ```
#![tactic(auto)]

mod lists;
mod typed;

ghost use Rattle.std.specs.Prelude.{◌≡◌, ℕ, ◌<◌, ◌≤◌, ◌^◌, false, IsTrue, ◌↔◌};
ghost use Rattle.std.specs.Fmt.{digits, digit_glyph};
ghost use Rattle.std.specs.Char.{digit_value};
ghost use Rattle.numeral_read.specs.Reading.{IsNumberOf};
ghost use Rattle.number_text.specs.Numerals.{dec, hex};

pub use lists::items_between_commas;
pub use typed::{begins_with, behind, number_of, read_address};

/// The number whose decimal numeral `text` is; `None` where it is no number's below 2^64.
pub fn read_dec(text: &[u8]) -> Option<u64>
    ensures { IsNumberOf dec text.now result }
{
    let n = value_of(10, text);
    if is_digits(10, n, text) {
        Some(n)
    } else {
        None
    }
}

/// The number whose hexadecimal numeral, `0x` and digits, `text` is; `None` where it is no number's below 2^64.
pub fn read_hex(text: &[u8]) -> Option<u64>
    ensures { IsNumberOf hex text.now result }
{
    match text {
        [b'0', b'x', digits @ ..] => {
            let n = value_of(16, digits);
            if is_digits(16, n, digits) {
                Some(n)
            } else {
                None
            }
        }
        _ => None,
    }
}

// The number whose digits these are, if they are any number's below 2^64.
fn value_of(base: u64, text: &[u8]) -> u64
    requires low { 2 ≤ base }
    requires high { base ≤ 16 }
    ensures { (n : ℕ) → n < 2 ^ 64 → text.now ≡ digits base false n → result ≡ n }
{
    let mut value = 0u64;
    for byte in text {
        value = value.wrapping_mul(base).wrapping_add(digit_of(*byte));
    }
    value
}

fn digit_of(byte: u8) -> u64
    ensures { result ≡ digit_value byte }
{
    match byte {
        b'0'..=b'9' => u64::from(byte - b'0'),
        b'A'..=b'Z' => u64::from(byte - b'A') + 10,
        b'a'..=b'z' => u64::from(byte - b'a') + 10,
        _ => 36,
    }
}

// Whether the text is the number's digits, the last one first.
fn is_digits(base: u64, n: u64, text: &[u8]) -> bool
    requires low { 2 ≤ base }
    requires high { base ≤ 16 }
    ensures { IsTrue result ↔ (text.now ≡ digits base false n) }
{
    match text {
        [] => false,
        [front @ .., last] => {
            if *last != glyph_of(n % base) {
                return false;
            }
            if n < base {
                return front.is_empty();
            }
            is_digits(base, n / base, front)
        }
    }
}

fn glyph_of(digit: u64) -> u8
    requires { digit < 16 }
    ensures { result ≡ digit_glyph false digit }
{
    if digit < 10 {
        b'0' + digit as u8
    } else {
        b'a' + (digit - 10) as u8
    }
}
