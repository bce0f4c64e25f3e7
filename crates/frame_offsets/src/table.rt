//! The table of what is known: for each point in turn, of each of the 32 registers.

ghost use Rattle.std.specs.Prelude.{◌≡◌, ◌+◌, ◌*◌, ◌<◌, ◌≤◌, ◌||◌, false, length, slice_set, slice_index_or, IfSome, if◌then◌else◌};
ghost use Rattle.frame_offsets.specs.Tables.{at_row, IsRowJoined, Knows, joined, lost, known_moved, passed, known_at, weight_of};
ghost use Rattle.frame_offsets.specs.declared.known.Known.TheVariants.{Unmet};

use crate::known::Known;

pub const REGISTERS: usize = 32;

/// What is known of each register at one point.
pub type Row = [Known; REGISTERS];

/// Joins what is known at the point of this number with a row, and says whether something changed.
pub fn raise_row(table: &mut [Known], i: usize, row: &Row) -> bool
    requires { 32 * i + 32 ≤ length table.old }
    ensures { IsRowJoined table.old table.new i (at_row row.now) 32 result }
{
    let mut rose = false;
    for register in 0..REGISTERS {
        let risen = raise(table, REGISTERS * i + register, row[register]);
        rose = either(risen, rose);
    }
    rose
}

// Joins what is known at a place of the table with what else is known there, and says whether it changed.
fn raise(table: &mut [Known], at: usize, other: Known) -> bool
    requires { at < length table.old }
    ensures after { table.new ≡ slice_set table.old at (joined (slice_index_or table.old at Unmet) other) }
    ensures fell { weight_of table.new + (if result then 1 else 0) ≤ weight_of table.old }
    ensures still { result ≡ false → Knows (slice_index_or table.old at Unmet) other }
{
    let both = joined(table[at], other);
    let rose = both != table[at];
    table[at] = both;
    rose
}

/// What is known behind an instruction of a register with this source.
pub fn passed(table: &[Known], from: usize, source: Option<(u8, i32)>) -> Known
    requires room { 32 * from + 32 ≤ length table.now }
    requires within { IfSome source (λ s. s.0 < 32) }
    ensures { result ≡ passed source (known_at table.now from) }
{
    match source {
        Some((register, added)) => known_moved(added, table[REGISTERS * from + register as usize]),
        None => lost(table[REGISTERS * from]),
    }
}

fn either(a: bool, b: bool) -> bool
    ensures { result ≡ (a || b) }
{
    a || b
}

fn known_moved(added: i32, known: Known) -> Known
    ensures { result ≡ known_moved added known }
{
    match known {
        Known::Offset(offset) => Known::Offset(offset.wrapping_add_signed(i64::from(added))),
        _ => known,
    }
}

fn lost(known: Known) -> Known
    ensures { result ≡ lost known }
{
    match known {
        Known::Unmet => Known::Unmet,
        _ => Known::Nothing,
    }
}

fn joined(a: Known, b: Known) -> Known
    ensures { result ≡ joined a b }
{
    match (a, b) {
        (Known::Unmet, other) | (other, Known::Unmet) => other,
        (Known::Offset(offset), Known::Offset(other)) if offset == other => a,
        _ => Known::Nothing,
    }
}
