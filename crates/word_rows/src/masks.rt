//! Which chunks of eight words have a word that isn't 0.

ghost use Rattle.std.specs.Prelude.{◌≡◌, ◌+◌, ◌<◌, ◌≤◌, length, drop, MatchBool};
ghost use Rattle.std.specs.Int.{bit_at};
ghost use Rattle.word_rows.specs.Rows.{lead};
ghost use Rattle.word_rows.specs.Masks.{mask_of, Covers};

use crate::lanes::{LANES, lead_of_lanes};

/// Whether a mask has this chunk.
pub fn has(mask: u64, chunk: usize) -> bool
    requires { chunk < 64 }
    ensures { MatchBool result (bit_at mask chunk ≡ 1) (bit_at mask chunk ≡ 0) }
{
    (mask >> chunk) & 1 == 1
}

/// The first position from `at` on whose word isn't 0, or the length.
fn lead_from(words: &[u64], at: usize) -> usize
    requires { at ≤ length words.now }
    ensures { result ≡ at + lead (drop at words.now) }
{
    for i in at..words.len() {
        if words[i] != 0 {
            return i;
        }
    }
    words.len()
}

/// The mask of words whose other chunks than these are 0.
pub fn mask_of(words: &[u64], chunks: u64) -> u64
    requires within { length words.now ≤ 512 }
    requires covers { Covers chunks words.now }
    ensures { result ≡ mask_of words.now }
{
    let wholes = words.len() / LANES;
    let mut mask = 0;
    for chunk in 0..wholes {
        if has(chunks, chunk) && lead_of_lanes(words, LANES * chunk) < LANES {
            mask += 1 << chunk;
        }
    }
    if lead_from(words, LANES * wholes) < words.len() {
        mask += 1 << wholes;
    }
    mask
}

/// How many words come before the first that isn't 0.
pub fn lead_of(words: &[u64], mask: u64) -> usize
    requires within { length words.now ≤ 512 }
    requires mask { mask ≡ mask_of words.now }
    ensures { result ≡ lead words.now }
{
    if mask == 0 {
        return words.len();
    }
    let at = LANES * mask.trailing_zeros() as usize;
    if at + LANES <= words.len() {
        at + lead_of_lanes(words, at)
    } else {
        lead_from(words, at)
    }
}
