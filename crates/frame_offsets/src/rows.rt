//! What is known of the 32 registers at one point.

ghost use Rattle.std.specs.Prelude.{◌≡◌, ℕ, ◌+◌, ◌*◌, ◌<◌, ◌≤◌, length};
ghost use Rattle.rv_decode.specs.Instructions.{IsWellFormed};
ghost use Rattle.frame_offsets.specs.Tables.{at_row, known_at_entry, passed_from};

use crate::known::Known;
use crate::sources::source_of;
use crate::table::{REGISTERS, Row, passed};
use flow_points::CodePoint;

const SP: usize = 2;

/// What is known at an entry.
pub fn row_at_entry() -> Row
    ensures { (r : ℕ) → r < 32 → at_row result r ≡ known_at_entry r }
{
    let mut row = [Known::Nothing; REGISTERS];
    row[SP] = Known::Offset(0);
    row
}

/// What is known behind the point of this number, whose code is given, by what is known at it.
pub fn row_behind(table: &[Known], i: usize, code: &CodePoint) -> Row
    requires room { 32 * i + 32 ≤ length table.now }
    requires instr { IsWellFormed code.now.instr }
    ensures { (r : ℕ) → r < 32 → at_row result r ≡ passed_from table.now i code.now r }
{
    let mut row = [Known::Unmet; REGISTERS];
    for register in 0..32u8 {
        row[register as usize] = passed(table, i, source_of(&code.instr, &code.flow, register));
    }
    row
}
