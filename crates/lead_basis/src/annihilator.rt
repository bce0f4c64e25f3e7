//! The rows that are 0 on a module: the relations, which are read off the pivots of a basis of the module's turned rows.

ghost use Rattle.std.specs.Prelude.{◌≡◌, ◌<◌, ◌↔◌, ℕ, List, Contains, IfOk};
ghost use Rattle.row_modules.specs.Bases.{IsReduced};
ghost use Rattle.row_modules.specs.Forms.{Annihilates};
ghost use Rattle.row_modules.specs.Modules.{IsCombination, Generates};
ghost use Rattle.lead_basis.specs.Annihilators.{GeneratorsTell};

use crate::mirror::mirrored_basis;
use crate::relations::relation_rows;
use crate::{Basis, Memory, Steps};
use row_modules::RowSet;
use std::alloc::Global;
use std::marker::Brand;
use std::sync::ledger::{Blank, Ledger};

impl Basis<17> {
    /// The reduced basis of all rows that are 0 at each position that isn't visible, bit i of `visible` standing for
    /// position i, and whose sum of products with each row of the module wraps to 0.
    pub fn annihilator(&self, alloc: Global, visible: u32) -> Result<Basis<17>, Memory>
        ensures reduced { IfOk result (λ basis. IsReduced basis) }
        ensures generates { IfOk result (λ basis. Generates 17 basis (Annihilates visible (IsCombination 17 (Contains self.now)))) }
        ensures module { IfOk result (λ basis. (a : List ℕ) → IsCombination 17 (Contains basis) a ↔ Annihilates visible (IsCombination 17 (Contains self.now)) a) }
    {
        annihilator_of::<Brand>(alloc, self, visible, Blank::new(1))
    }
}

/// The same, with a ledger of its own for the placements, which nobody reads.
fn annihilator_of<L: Ledger>(
    alloc: Global,
    source: &Basis<17>,
    visible: u32,
    blank: Blank,
) -> Result<Basis<17>, Memory>
    requires name { blank.name ≡ L.name }
    requires parts { blank.parts ≡ L.parts }
    requires some { 0 < blank.parts }
    ensures reduced { IfOk result (λ basis. IsReduced basis) }
    ensures generates { IfOk result (λ basis. Generates 17 basis (Annihilates visible (IsCombination 17 (Contains source.now)))) }
    ensures module { IfOk result (λ basis. (a : List ℕ) → IsCombination 17 (Contains basis) a ↔ Annihilates visible (IsCombination 17 (Contains source.now)) a) }
{
    let mut steps = Steps::<L>::new(blank);
    source.known();
    let mirrored = mirrored_basis(alloc, source.rows(), visible, &mut steps)?;
    let rows = relation_rows(alloc, &mirrored, visible)?;
    Ok(Basis::<17>::from_rows(rows))
}

/// Generators tell what annihilates their module. Nothing runs here: the contract is the law.
pub fn generators_tell_annihilators<P: RowSet, Q: RowSet>()
    ensures { GeneratorsTell P.member Q.member }
{}
