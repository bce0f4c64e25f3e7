//! The check of a point's rows.

ghost use Rattle.std.specs.Prelude.{◌≡◌, ◌<◌, ◌↔◌, Contains, IfOk, IsTrue};
ghost use Rattle.row_modules.specs.Modules.{SameModule};
ghost use Rattle.row_modules.specs.Bases.{IsLeadingBasis, IsReduced};

use lead_basis::{Basis, Memory, Steps};
use std::alloc::Global;
use std::marker::Brand;
use std::sync::ledger::{Blank, Ledger};
use word_rows::Row;

/// Whether the rows are a reduced leading-position basis.
pub fn are_reduced(alloc: Global, rows: &[Row<17>]) -> Result<bool, Memory>
    ensures { IfOk result (λ yes. IsTrue yes ↔ (IsLeadingBasis 17 rows.now × IsReduced rows.now)) }
{
    let basis = basis_from::<Brand>(alloc, rows, Blank::new(1))?.reduced();
    basis.known();
    Ok(basis.rows() == rows)
}

// The basis of what the rows span, on a ledger that begins.
fn basis_from<L: Ledger>(alloc: Global, rows: &[Row<17>], blank: Blank) -> Result<Basis<17>, Memory>
    requires name { blank.name ≡ L.name }
    requires parts { blank.parts ≡ L.parts }
    requires some { 0 < blank.parts }
    ensures { IfOk result (λ b. SameModule 17 (Contains rows.now) (Contains b)) }
{
    let mut steps = Steps::<L>::new(blank);
    let mut basis = Basis::<17>::new(alloc);
    for row in rows {
        row.known();
        basis.known();
        basis.insert(*row, &mut steps)?;
    }
    Ok(basis)
}
