//! One item.

ghost use Rattle.std.specs.Prelude.{◌≡◌, ◌≢◌, ℕ, ◌++◌, ◌∷◌, ◌<◌, ◌≤◌, Some, IfSome, MatchOption};
ghost use Rattle.rv_decode.specs.Registers.{register_of};
ghost use Rattle.start_registers.specs.Settings.{HasNoEquals, Sets};

use crate::word::word_of;
use rv_decode::read_register;

/// The register that an item sets, and its word.
pub fn setting_of(item: &str) -> Option<(u8, u64)>
    ensures set { MatchOption result ((r w : ℕ) → Sets item.now r w → ⊥) (λ s. Sets item.now s.0 s.1) }
    ensures within { IfSome result (λ s. s.0 < 32) }
{
    let Some((name, numeral)) = parts(item) else {
        return None;
    };
    let Some(register) = register_named(name) else {
        return None;
    };
    let Some(word) = word_of(numeral) else {
        return None;
    };
    Some((register, word))
}

// What stands before and behind the first equals sign.
fn parts(item: &str) -> Option<(&str, &str)>
    ensures { MatchOption result (HasNoEquals item.now) (λ s. (item.now ≡ s.0.now ++ 61 ∷ s.1.now) × HasNoEquals s.0.now) }
{
    item.split_once('=')
}

// The register that a text names, unless it is zero.
fn register_named(name: &str) -> Option<u8>
    ensures register { MatchOption result ((r : ℕ) → register_of name.now ≡ Some r → r ≢ 0 → ⊥)
        (λ r. register_of name.now ≡ Some r) }
    ensures allowed { IfSome result (λ r. (1 ≤ r) × (r < 32)) }
{
    match read_register(name) {
        Some(register) if register != 0 => Some(register),
        _ => None,
    }
}
