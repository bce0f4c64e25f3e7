//! Numbers as text.
//!
//! The crate promises that each call appends exactly the numeral of its number, or leaves the text
//! as it was where memory runs out. It leaves the reading of numerals to others.
//!
//! ```text
//! push_dec(&mut text, 65660)?; // 65660
//! push_hex(&mut text, 65660)?; // 0x1007c
//! push_hex8(&mut text, 0x97)?; // 00000097
//! push_hex4(&mut text, 0x97)?; // 0097
//! ```
#![tactic(auto)]

ghost use Rattle.std.specs.Prelude.{◌≡◌, ℕ, ◌<◌, ◌^◌, ◌++◌, OnOk, OnErr};
ghost use Rattle.number_text.specs.Numerals.{dec, hex, hex_digit, hex4, hex8};

use std::alloc::AllocError;

/// Appends `n` in decimal, without leading zeros.
pub fn push_dec(text: &mut Vec<u8>, n: u64) -> Result<(), AllocError>
    ensures ok { OnOk result (text.new.items ≡ text.old.items ++ dec n) }
    ensures err { OnErr result (text.new.items ≡ text.old.items) }
{
    let numeral = format!(in *text.allocator(); "{n}")?;
    text.extend_from_slice(numeral.as_bytes())
}

/// Appends `0x` and `n` in lower-case hexadecimal digits, without leading zeros.
pub fn push_hex(text: &mut Vec<u8>, n: u64) -> Result<(), AllocError>
    ensures ok { OnOk result (text.new.items ≡ text.old.items ++ hex n) }
    ensures err { OnErr result (text.new.items ≡ text.old.items) }
{
    let numeral = format!(in *text.allocator(); "0x{n:x}")?;
    text.extend_from_slice(numeral.as_bytes())
}

/// Appends the eight lower-case hexadecimal digits of `word`, without `0x`.
pub fn push_hex8(text: &mut Vec<u8>, word: u32) -> Result<(), AllocError>
    ensures ok { OnOk result (text.new.items ≡ text.old.items ++ hex8 word) }
    ensures err { OnErr result (text.new.items ≡ text.old.items) }
{
    let digits = [
        digit_at(word, 7),
        digit_at(word, 6),
        digit_at(word, 5),
        digit_at(word, 4),
        digit_at(word, 3),
        digit_at(word, 2),
        digit_at(word, 1),
        digit_at(word, 0),
    ];
    text.extend_from_slice(&digits)
}

/// Appends the last four lower-case hexadecimal digits of `word`, without `0x`.
pub fn push_hex4(text: &mut Vec<u8>, word: u32) -> Result<(), AllocError>
    ensures ok { OnOk result (text.new.items ≡ text.old.items ++ hex4 word) }
    ensures err { OnErr result (text.new.items ≡ text.old.items) }
{
    let digits = [
        digit_at(word, 3),
        digit_at(word, 2),
        digit_at(word, 1),
        digit_at(word, 0),
    ];
    text.extend_from_slice(&digits)
}

// The hexadecimal digit of `word` at a place, counted from the right.
fn digit_at(word: u32, place: u32) -> u8
    requires { place < 8 }
    ensures { result ≡ hex_digit word place }
{
    let digit = (word >> (4 * place)) % 16;
    if digit < 10 {
        b'0' + digit as u8
    } else {
        b'a' + (digit - 10) as u8
    }
}

/// A decimal numeral tells its number.
pub fn dec_is_injective()
    ensures { (m n : ℕ) → m < 2 ^ 64 → n < 2 ^ 64 → dec m ≡ dec n → m ≡ n }
{}

/// A hexadecimal numeral tells its number.
pub fn hex_is_injective()
    ensures { (m n : ℕ) → m < 2 ^ 64 → n < 2 ^ 64 → hex m ≡ hex n → m ≡ n }
{}
