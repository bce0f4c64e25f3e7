//! Lists of items.

ghost use Rattle.std.specs.Prelude.{◌≡◌, IfOk, MatchOption};
ghost use Rattle.numeral_read.specs.Lists.{texts_of};
ghost use Rattle.start_registers.specs.Settings.{AreRegistersOf, IsRegistersOf, IsSettingList};

use crate::item::setting_of;
use numeral_read::items_between_commas;
use std::alloc::{AllocError, Global};

/// The 32 registers that a list of items `register=word` makes, each that no item names with 0; `None` exactly where the
/// text is no such list. A register has one of its psABI names, `fp`, or `x1` to `x31`, and no two items have the same
/// one. A word is below 2^64, in decimal without leading zeros, or `0x` and 1 to 16 hexadecimal digits.
pub fn read_registers(alloc: Global, text: &str) -> Result<Option<[u64; 32]>, AllocError>
    ensures { IfOk result (IsRegistersOf text.now) }
{
    let items = items_between_commas(alloc, text)?;
    Ok(registers_of(&items))
}

// The registers that the items make.
fn registers_of(items: &[&str]) -> Option<[u64; 32]>
    ensures { MatchOption result (IsSettingList (texts_of items.now) → ⊥) (AreRegistersOf (texts_of items.now)) }
{
    let mut regs = [0; 32];
    let mut named = [false; 32];
    for item in items {
        let Some((register, word)) = setting_of(item) else {
            return None;
        };
        let register = register as usize;
        if named[register] {
            return None;
        }
        named[register] = true;
        regs[register] = word;
    }
    Some(regs)
}
