//! The rows of a node that are still to be pushed.

ghost use Rattle.std.specs.Prelude.{IfOk, IsFalse, OnOk};
ghost use Rattle.lead_basis.specs.Marks.{IsUnmarked};
ghost use Rattle.row_engine.specs.Turns.{AreChanged, IsKept};

use lead_basis::Memory;
use sqlite_items::Items;
use std::alloc::Global;
use word_rows::Row;

/// Whether a row is marked.
fn is_marked<const N: usize>(row: &Row<N>, marks: &Row<N>) -> bool
    ensures { IsFalse result → IsUnmarked marks.now row.now }
{
    row.known();
    marks.known();
    match row.lead() {
        Some(lead) => marks.get(lead) != 0,
        None => false,
    }
}

/// Adds a row if it is marked.
fn keep_marked<const N: usize>(
    changed: &mut Items<Row<N>>,
    row: &Row<N>,
    marks: &Row<N>,
) -> Result<(), Memory>
    ensures { OnOk result (IsKept row.now marks.now changed.old changed.new) }
{
    if !is_marked(row, marks) {
        return Ok(());
    }
    match changed.push(*row) {
        Ok(()) => Ok(()),
        Err(_) => Err(Memory),
    }
}

/// A copy of the rows with marks.
pub(crate) fn changed_rows<const N: usize>(
    alloc: Global,
    rows: &[Row<N>],
    marks: &Row<N>,
) -> Result<Items<Row<N>>, Memory>
    ensures { IfOk result (AreChanged rows.now marks.now) }
{
    let mut changed = Items::new(alloc);
    for row in rows {
        keep_marked(&mut changed, row, marks)?;
    }
    Ok(changed)
}
