//! The relations of a module modulo 2^32.

ghost use Rattle.std.specs.Prelude.{◌≡◌, ◌<◌, ◌^◌, ◌↔◌, IsTrue, Contains, IfOk, map};
ghost use Rattle.word_rows.specs.Rows.{lead, pivot};
ghost use Rattle.row_modules.specs.Modules.{IsCombination, SameModule};
ghost use Rattle.row_modules.specs.Positions.{has};
ghost use Rattle.report_text.specs.declared.points.PointState.TheVariants.{Unreached};
ghost use Rattle.narrow_solver.specs.Narrow.{IsNarrowZero, kept, scaled};
ghost use Rattle.narrow_solver.specs.Answers.{IsNarrowAnswer};
ghost use Rattle.narrow_solver.specs.Solving.{OnNarrowRows};

use lead_basis::{Basis, Memory, Steps};
use relation_solver::{Relations, solve};
use report_text::PointState;
use sqlite_items::Items;
use std::alloc::Global;
use std::marker::Brand;
use std::sync::ledger::{Blank, Ledger};
use word_rows::Row;

/// The relations of a module modulo 2^32. Bit i of `visible` stands for position i, and the constant's position 16 is always
/// visible. There is no refusal but out of memory.
pub fn narrow_relations(
    alloc: Global,
    states: &Basis<17>,
    visible: u32,
) -> Result<PointState, Memory>
    requires constant { IsTrue (has visible 16) }
    ensures unreached { IfOk result (λ r. (r ≡ Unreached) ↔ IsNarrowZero 17 (Contains states.now)) }
    ensures rows { IfOk result (λ r. OnNarrowRows r (IsNarrowAnswer visible (IsCombination 17 (Contains states.now)))) }
{
    states.known();
    let multiples = scaled_basis::<Brand>(alloc, states, Blank::new(1))?;
    match solve::relations(alloc, &multiples, visible)? {
        Relations::Unreached => Ok(PointState::Unreached),
        Relations::Rows(basis) => {
            basis.known();
            let rows = kept_rows(alloc, &basis)?;
            Ok(PointState::Rows(rows))
        }
    }
}

/// A basis of the multiples by 2^32, with a ledger of its own for the placements, which nobody reads.
fn scaled_basis<L: Ledger>(
    alloc: Global,
    states: &Basis<17>,
    blank: Blank,
) -> Result<Basis<17>, Memory>
    requires name { blank.name ≡ L.name }
    requires parts { blank.parts ≡ L.parts }
    requires some { 0 < blank.parts }
    ensures { IfOk result (λ basis. SameModule 17 (Contains basis) (Contains (map scaled states.now))) }
{
    let mut steps = Steps::<L>::new(blank);
    let mut basis = Basis::<17>::new(alloc);
    states.known();
    for row in states.rows() {
        basis.insert(scaled_row(row), &mut steps)?;
    }
    Ok(basis)
}

/// 2^32 times a row.
fn scaled_row(row: &Row<17>) -> Row<17>
    ensures { result ≡ scaled row.now }
{
    let mut own = *row;
    own.scale(1 << 32);
    own
}

/// The rows whose pivot isn't 2^32.
fn kept_rows(alloc: Global, basis: &Basis<17>) -> Result<Items<Row<17>>, Memory>
    ensures { IfOk result (λ rows. rows ≡ kept basis.now) }
{
    let mut rows = Vec::new(alloc);
    for row in basis.rows() {
        if !is_full(row) {
            match rows.push(*row) {
                Ok(()) => {}
                Err(_) => return Err(Memory),
            }
        }
    }
    Ok(Items::from_vec(rows))
}

/// Whether the pivot is 2^32.
fn is_full(row: &Row<17>) -> bool
    ensures { IsTrue result ↔ (pivot row.now ≡ 2 ^ 32) }
{
    match row.lead() {
        Some(lead) => row.get(lead) == 1 << 32,
        None => false,
    }
}
