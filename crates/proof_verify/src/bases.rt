//! Bases of rows of states.

ghost use Rattle.std.specs.Prelude.{Contains, IfOk};
ghost use Rattle.row_modules.specs.Modules.{AreRows};
ghost use Rattle.proof_verify.specs.RowBases.{IsBasisOfRows};

use lead_basis::{Basis, Memory, Steps};
use std::alloc::Global;
use std::sync::ledger::Ledger;
use word_rows::Row;

/// A basis of the module of rows.
pub(crate) fn basis_of<L: Ledger>(
    alloc: Global,
    rows: &[Row<17>],
    steps: &mut Steps<L>,
) -> Result<Basis<17>, Memory>
    requires { AreRows 17 (Contains rows.now) }
    ensures { IfOk result (IsBasisOfRows 17 rows.now) }
{
    let mut basis = Basis::new(alloc);
    for row in rows {
        basis.insert(*row, steps)?;
    }
    Ok(basis)
}
