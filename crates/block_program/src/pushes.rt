//! The states behind an edge.

ghost use Rattle.std.specs.Prelude.{◌≡◌, ◌<◌, ◌≤◌, ◌+◌, All, Contains, length, IfOk};
ghost use Rattle.row_modules.specs.Maps.{Products};
ghost use Rattle.row_modules.specs.Modules.{AreRows, SameModule};
ghost use Rattle.row_modules.specs.Bases.{IsLeadingBasis};
ghost use Rattle.map_modules.specs.Matrices.{apply};
ghost use Rattle.affine_prog.specs.declared.Kind.TheVariants.{Do};
ghost use Rattle.affine_prog.specs.Assignments.{position_of};
ghost use Rattle.row_images.specs.States.{Spans, IsMatrixOf};
ghost use Rattle.merged_heads.specs.Merges.{assigns_of};
ghost use Rattle.merged_heads.specs.Pushes.{MakesOf, CountsBases};
ghost use Rattle.block_program.specs.Built.{IsBuilt};

use affine_prog::{Assign, Edge};
use lead_basis::{Basis, Memory, Steps};
use merged_heads::assigns_of;
use row_images::images;
use sqlite_items::Items;
use std::alloc::Global;
use std::sync::ledger::Ledger;
use word_rows::Row;

/// A basis of what an edge that calls nothing makes of the module of `at`, under all choices. It counts each placement of
/// a row: at every answer at most the length of a basis of that module, and at Ok at least one for each row of the answer.
pub fn push<L: Ledger>(
    alloc: Global,
    edge: &Edge,
    at: &Basis<17>,
    steps: &mut Steps<L>,
) -> Result<Basis<17>, Memory>
    requires edge { edge.now.kind ≡ Do (assigns_of edge.now.kind) }
    requires positions { All (λ a. position_of a < 16) (assigns_of edge.now.kind) }
    ensures exact { IfOk result (λ pushed. SameModule 17 (Contains pushed) (MakesOf (assigns_of edge.now.kind) at.now)) }
    ensures never_falls { steps.old ≤ steps.new }
    ensures counts_no_more { CountsBases (MakesOf (assigns_of edge.now.kind) at.now) steps.old steps.new }
    ensures counts_rows { IfOk result (λ pushed. steps.old + length pushed ≤ steps.new) }
{
    at.known();
    let rows = all_images(alloc, assigns_of(&edge.kind), at.rows())?;
    basis_of(alloc, rows.as_slice(), steps)
}

/// Rows that span what assignments make of each of the rows.
fn all_images(alloc: Global, assigns: &[Assign], rows: &[Row<17>]) -> Result<Items<Row<17>>, Memory>
    requires { All (λ a. position_of a < 16) assigns.now }
    ensures { IfOk result (λ all. Spans all (Products apply (IsMatrixOf assigns.now) (Contains rows.now))) }
{
    let mut all = Items::new(alloc);
    for row in rows {
        let more = images(alloc, assigns, row)?;
        match all.append(more) {
            Ok(()) => {}
            Err(_) => return Err(Memory),
        }
    }
    Ok(all)
}

/// A basis of the module of the rows, counted.
fn basis_of<L: Ledger>(
    alloc: Global,
    rows: &[Row<17>],
    steps: &mut Steps<L>,
) -> Result<Basis<17>, Memory>
    requires { AreRows 17 (Contains rows.now) }
    ensures built { IfOk result (λ basis. IsBuilt rows.now basis steps.old steps.new) }
    ensures never_falls { steps.old ≤ steps.new }
    ensures counts_no_more { CountsBases (Contains rows.now) steps.old steps.new }
{
    let mut basis = Basis::new(alloc);
    for row in rows {
        basis.insert(*row, steps)?;
    }
    Ok(basis)
}
