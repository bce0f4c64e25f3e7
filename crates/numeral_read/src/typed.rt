//! Numbers that people type.

ghost use Rattle.std.specs.Prelude.{◌≡◌, ◌≢◌, ◌==◌, ℕ, ◌<◌, ◌≤◌, ◌^◌, List, ◌∷◌, slice_index, MatchOption};
ghost use Rattle.std.specs.Option.{SomeIff};
ghost use Rattle.std.specs.Str.Parse.{IsNumeral, digits_value};
ghost use Rattle.numeral_read.specs.Reading.{IsAddress};

/// The address that a text is: `0x` and 1 to 16 hexadecimal digits of either case.
pub fn read_address(text: &str) -> Option<u64>
    ensures { MatchOption result ((p : ℕ) → IsAddress text.now p → ⊥) (IsAddress text.now) }
{
    let Some(digits) = digits_behind(text) else {
        return None;
    };
    if digits.len() > 16 {
        return None;
    }
    number_of(digits, 16)
}

// What stands behind `0x`.
fn digits_behind(text: &str) -> Option<&str>
    ensures { MatchOption result ((rest : List ℕ) → text.now ≢ 48 ∷ 120 ∷ rest) (λ rest. text.now ≡ 48 ∷ 120 ∷ rest.now) }
{
    match behind(text, '0') {
        Some(rest) => behind(rest, 'x'),
        None => None,
    }
}

/// What stands behind the first character, if it is this one.
pub fn behind(text: &str, first: char) -> Option<&str>
    requires { first < 128 }
    ensures { MatchOption result ((rest : List ℕ) → text.now ≢ first ∷ rest) (λ rest. text.now ≡ first ∷ rest.now) }
{
    text.strip_prefix(first)
}

/// The number of a numeral in this radix without a sign; `None` where the text is none of a number below 2^64.
pub fn number_of(digits: &str, radix: u32) -> Option<u64>
    requires least { 2 ≤ radix }
    requires most { radix ≤ 36 }
    ensures { SomeIff result (IsNumeral radix digits.now × (digits_value radix digits.now < 2 ^ 64)) (digits_value radix digits.now) }
{
    if begins_with(digits, b'+') {
        return None;
    }
    match u64::from_str_radix(digits, radix) {
        Ok(number) => Some(number),
        Err(_) => None,
    }
}

/// Whether the text's first byte is this one.
pub fn begins_with(text: &str, byte: u8) -> bool
    requires { byte ≢ 0 }
    ensures { result ≡ (slice_index text.now 0 == byte) }
{
    match text.as_bytes() {
        [first, ..] => *first == byte,
        [] => false,
    }
}
