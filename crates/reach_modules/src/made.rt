//! What openings and returns make of a row.

ghost use Rattle.std.specs.Prelude.{◌≡◌, ◌<◌, ◌↔◌, ◌++◌, ◌∷◌, [], All, flat_map, OnOk, IfOk, bit_and, if◌then◌else◌};
ghost use Rattle.row_modules.specs.Positions.{has};
ghost use Rattle.reach_modules.specs.Made.{opened, opened_of, returned_of};
ghost use Rattle.reach_modules.specs.Tables.{ArePositions};

use lead_basis::Memory;
use map_modules::{Mat, apply, extend_call};
use sqlite_items::Items;
use std::alloc::Global;
use word_rows::Row;

/// Adds a row to a list.
fn add(rows: &mut Items<Row<17>>, row: Row<17>) -> Result<(), Memory>
    ensures { OnOk result (rows.new ≡ rows.old ++ row ∷ []) }
{
    match rows.push(row) {
        Ok(()) => Ok(()),
        Err(_) => Err(Memory),
    }
}

/// Whether a set has this position.
fn has(set: u16, i: u8) -> bool
    requires { i < 16 }
    ensures { result ≡ has set i }
{
    (set >> i) & 1 == 1
}

/// Adds a position to a list where it is wanted.
fn add_where(positions: &mut Items<u8>, i: u8, wanted: bool) -> Result<(), Memory>
    ensures { OnOk result (positions.new ≡ (if wanted then positions.old ++ i ∷ [] else positions.old)) }
{
    if !wanted {
        return Ok(());
    }
    match positions.push(i) {
        Ok(()) => Ok(()),
        Err(_) => Err(Memory),
    }
}

/// The positions of a set.
pub(crate) fn positions(alloc: Global, set: u16) -> Result<Items<u8>, Memory>
    ensures { IfOk result (ArePositions set) }
{
    let mut positions = Items::new(alloc);
    for i in 0..16u8 {
        add_where(&mut positions, i, has(set, i))?;
    }
    Ok(positions)
}

/// Adds a row, and a word at each of the positions alone.
pub(crate) fn push_opened(
    rows: &mut Items<Row<17>>,
    slots: &[u8],
    kept: Row<17>,
    word: u64,
) -> Result<(), Memory>
    requires { All (λ k. k < 17) slots.now }
    ensures { OnOk result (rows.new ≡ rows.old ++ opened slots.now kept word) }
{
    add(rows, kept)?;
    if word == 0 {
        return Ok(());
    }
    for slot in slots {
        add(rows, Row::zero().with(usize::from(*slot), word))?;
    }
    Ok(())
}

/// What a matrix keeps of each row, and each row's word at position 16 at each of the slots alone.
pub(crate) fn each_opened(
    alloc: Global,
    slots: &[u8],
    keep: &Mat,
    rows: &[Row<17>],
) -> Result<Items<Row<17>>, Memory>
    requires { All (λ k. k < 17) slots.now }
    ensures { IfOk result (λ all. all ≡ flat_map (opened_of slots.now keep.now) rows.now) }
{
    let mut all = Items::new(alloc);
    for row in rows {
        push_opened(&mut all, slots, apply(keep, row), row.get(16))?;
    }
    Ok(all)
}

/// Adds what each map of a callee, as its caller sees it, makes of a row.
fn push_returned(
    rows: &mut Items<Row<17>>,
    registers: u16,
    slots: u16,
    exits: &[Mat],
    row: &Row<17>,
) -> Result<(), Memory>
    requires { bit_and registers slots ≡ 0 }
    ensures { OnOk result (rows.new ≡ rows.old ++ returned_of registers slots exits.now row.now) }
{
    for exit in exits {
        add(rows, apply(&extend_call(exit, registers, slots), row))?;
    }
    Ok(())
}

/// What the maps of a callee, as its caller sees them, make of each row.
pub(crate) fn each_returned(
    alloc: Global,
    sets: (u16, u16),
    exits: &[Mat],
    rows: &[Row<17>],
) -> Result<Items<Row<17>>, Memory>
    requires { bit_and sets.0 sets.1 ≡ 0 }
    ensures { IfOk result (λ all. all ≡ flat_map (returned_of sets.0 sets.1 exits.now) rows.now) }
{
    let mut all = Items::new(alloc);
    for row in rows {
        push_returned(&mut all, sets.0, sets.1, exits, row)?;
    }
    Ok(all)
}
