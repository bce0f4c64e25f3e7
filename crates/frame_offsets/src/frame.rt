//! The offsets of the points of an image.

ghost use Rattle.std.specs.Prelude.{◌≡◌, ◌+◌, ◌*◌, ◌<◌, ◌≤◌, length, map, option_map};
ghost use Rattle.std.specs.Int.{cast_signed, w64};
ghost use Rattle.frame_offsets.specs.Frames.{offset_at};
ghost use Rattle.frame_offsets.specs.Tables.{offset_known};

use crate::known::Known;
use crate::table::REGISTERS;
use sqlite_items::Items;
use std::marker::Model;

/// The offset of each register at each point, as far as it has one.
#[derive(Debug, Drop)]
pub struct Offsets {
    table: Items<Known>,
}

impl Model for Offsets {
    ghost use Rattle.std.specs.Prelude.{ℕ, List, Option, map};
    ghost use Rattle.frame_offsets.specs.Tables.{offset_known};

    ghost Value = { List (Option ℕ) };

    ghost view = { λ o. map offset_known o.table };
}

impl Offsets {
    /// The offsets that a table knows.
    pub(crate) fn of_table(table: Items<Known>) -> Offsets
        ensures { result ≡ map offset_known table }
    {
        Offsets { table }
    }

    /// The offset of a register at the point of this number: what is added to sp at the entry of the
    /// point's procedure, wrapping modulo 2^64. None exactly where the register has no offset there.
    pub fn at(&self, point: u32, register: u8) -> Option<i64>
        requires point { 32 * point + 32 ≤ length self.now }
        requires register { register < 32 }
        ensures { result ≡ option_map (cast_signed w64) (offset_at self.now point register) }
    {
        match self.table.as_slice()[REGISTERS * point as usize + register as usize] {
            Known::Offset(offset) => Some(offset.cast_signed()),
            Known::Unmet | Known::Nothing => None,
        }
    }
}
