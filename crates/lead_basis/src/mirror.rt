//! Rows whose positions are turned.

ghost use Rattle.std.specs.Prelude.{◌≡◌, ◌<◌, IfOk, reverse};
ghost use Rattle.row_modules.specs.Positions.{has};
ghost use Rattle.lead_basis.specs.Mirrors.{mirror, Mirrors};

use crate::{Basis, Memory, Steps};
use std::alloc::Global;
use std::sync::ledger::Ledger;
use word_rows::Row;

/// Whether a position is visible.
pub(crate) fn is_visible(visible: u32, position: usize) -> bool
    requires { position < 32 }
    ensures { result ≡ has visible position }
{
    (visible >> position) & 1 == 1
}

/// The words at the visible positions, the last first, and zeros at the others.
fn mirrored_row(row: &Row<17>, visible: u32) -> Row<17>
    ensures { result ≡ mirror visible row.now }
{
    row.known();
    let mut words = [0; 17];
    for i in 0..17usize {
        if is_visible(visible, i) {
            words[16 - i] = row.get(i);
        }
    }
    Row::from_words(&words)
}

/// The words, the last first.
pub(crate) fn turned(row: &Row<17>) -> Row<17>
    ensures { result ≡ reverse row.now }
{
    row.known();
    let mut words = [0; 17];
    for i in 0..17usize {
        words[16 - i] = row.get(i);
    }
    Row::from_words(&words)
}

/// A basis of the turned rows.
pub(crate) fn mirrored_basis<L: Ledger>(
    alloc: Global,
    rows: &[Row<17>],
    visible: u32,
    steps: &mut Steps<L>,
) -> Result<Basis<17>, Memory>
    ensures { IfOk result (λ basis. Mirrors visible rows.now basis) }
{
    let mut basis = Basis::<17>::new(alloc);
    for row in rows {
        row.known();
        basis.insert(mirrored_row(row, visible), steps)?;
    }
    Ok(basis)
}
