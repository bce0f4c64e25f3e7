//! A row that is offered to a node.

ghost use Rattle.std.specs.Prelude.{◌≡◌, ◌<◌, ℕ, [], ◌∷◌, IsTrue, length, slice_index};
ghost use Rattle.row_engine.specs.States.{state};
ghost use Rattle.row_engine.specs.Growth.{Offered, Takes};

use lead_basis::{Basis, Memory, Steps};
use sqlite_items::Items;
use std::sync::ledger::Ledger;
use word_rows::Row;

/// Whether no row is marked.
fn is_clear<const N: usize>(marks: &Row<N>) -> bool
    ensures clear { IsTrue result → (k : ℕ) → slice_index marks.now k ≡ 0 }
    ensures marked { ((k : ℕ) → slice_index marks.now k ≡ 0) → IsTrue result }
{
    marks.lead().is_none()
}

/// Offers a row to a node. The node enters the queue where its module grew, if it had no marks.
pub(crate) fn take<const N: usize, L: Ledger>(
    bases: &mut Vec<Basis<N>>,
    marks: &mut Vec<Row<N>>,
    queue: &mut Items<u32>,
    to: u32,
    row: &Row<N>,
    steps: &mut Steps<L>,
) -> Result<(), Memory>
    requires to { to < length bases.old.items }
    requires marks { length marks.old.items ≡ length bases.old.items }
    ensures { Takes N (Offered N to (row.now ∷ [])) (state bases.old.items marks.old.items queue.old) (state bases.new.items marks.new.items queue.new) result steps.old steps.new }
{
    row.known();
    let basis = &mut bases[to as usize];
    basis.known();
    let own = &mut marks[to as usize];
    let clear = is_clear(own);
    let grew = basis.insert_marked(*row, own, steps)?;
    if !grew || !clear {
        return Ok(());
    }
    match queue.push(to) {
        Ok(()) => Ok(()),
        Err(_) => Err(Memory),
    }
}
