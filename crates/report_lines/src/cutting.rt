//! Bytes cut at the first of a kind.

ghost use Rattle.std.specs.Prelude.{◌≡◌, ◌≤◌, length, ◌==◌};
ghost use Rattle.std.specs.List.{position_or_len};
ghost use Rattle.report_lines.specs.Parts.{IsBehind, IsCut};

/// What stands before the first byte of this kind, and what behind it; `None` where there is none.
pub fn cut_at(byte: u8, text: &[u8]) -> Option<(&[u8], &[u8])>
    ensures { IsCut byte text.now result }
{
    let at = place_of(byte, text);
    if at == text.len() {
        return None;
    }
    Some((&text[..at], &text[at + 1..]))
}

// The place of the first such byte, or the length.
fn place_of(byte: u8, text: &[u8]) -> usize
    ensures first { result ≡ position_or_len (λ b. b == byte) text.now }
    ensures within { result ≤ length text.now }
{
    let mut at = 0;
    while at < text.len() && text[at] != byte {
        at += 1;
    }
    at
}

/// What follows the prefix; `None` where the text doesn't begin with it.
pub fn behind<'a>(prefix: &[u8], text: &'a [u8]) -> Option<&'a [u8]>
    ensures { IsBehind prefix.now text.now result }
{
    if text.len() < prefix.len() {
        return None;
    }
    if &text[..prefix.len()] == prefix {
        Some(&text[prefix.len()..])
    } else {
        None
    }
}
