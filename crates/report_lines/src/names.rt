//! Names of registers and frame slots, as reports write them.

ghost use Rattle.std.specs.Prelude.{◌≡◌, ◌≢◌, ℕ, ◌<◌, ◌≤◌, ◌↔◌, ◌∷◌, IfSome, IfNone, IsTrue};
ghost use Rattle.rv_decode.specs.Registers.{name_of_register};
ghost use Rattle.number_text.specs.Numerals.{dec};
ghost use Rattle.numeral_read.specs.Reading.{IsNumberOf};
ghost use Rattle.report_text.specs.Names.{IsAllowedBelow};
ghost use Rattle.report_lines.specs.NameTexts.{IsSlotReading, IsNameReading};

use crate::cutting::cut_at;
use numeral_read::{read_dec, read_hex};
use report_text::Name;
use rv_decode::register_name;

/// The name whose text this is.
pub fn read_name(text: &[u8]) -> Option<Name>
    ensures { IsNameReading text.now result }
{
    if let Some(r) = read_printed(text) {
        return Some(Name::Register(r));
    }
    match read_slot(text) {
        None => None,
        Some((proc_entry, below)) => {
            if is_allowed_below(below) {
                let below = below as u16;
                Some(Name::Slot { proc_entry, below })
            } else {
                None
            }
        }
    }
}

// The register, other than `zero`, whose printed name the text is.
fn read_printed(text: &[u8]) -> Option<u8>
    ensures some { IfSome result (λ r. (1 ≤ r) × (r < 32) × (text.now ≡ name_of_register r)) }
    ensures none { IfNone result ((r : ℕ) → 1 ≤ r → r < 32 → text.now ≢ name_of_register r) }
{
    for r in 1..32u8 {
        if text == register_name(r).as_bytes() {
            return Some(r);
        }
    }
    None
}

// A procedure's address and a number of bytes below, of any size.
fn read_slot(text: &[u8]) -> Option<(u64, u64)>
    ensures { IsSlotReading text.now result }
{
    let Some((front, behind)) = cut_at(b':', text) else {
        return None;
    };
    match read_hex(front) {
        None => None,
        Some(proc_entry) => match read_below(behind) {
            None => None,
            Some(below) => Some((proc_entry, below)),
        },
    }
}

// The number behind a minus sign.
fn read_below(text: &[u8]) -> Option<u64>
    ensures { IsNumberOf (λ n. 45 ∷ dec n) text.now result }
{
    match text {
        [b'-', digits @ ..] => read_dec(digits),
        _ => None,
    }
}

fn is_allowed_below(below: u64) -> bool
    ensures { IsTrue result ↔ IsAllowedBelow below }
{
    8 <= below && below <= 2048 && below % 8 == 0
}
