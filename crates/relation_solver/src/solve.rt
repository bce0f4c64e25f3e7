//! The relations of a module, and the law on the states that span it.

ghost use Rattle.std.specs.Prelude.{◌≡◌, IsTrue, ◌↔◌, ℕ, List, Contains, IfOk};
ghost use Rattle.row_modules.specs.Bases.{IsReduced};
ghost use Rattle.row_modules.specs.Modules.{IsCombination, Generates};
ghost use Rattle.row_modules.specs.Forms.{Annihilates};
ghost use Rattle.row_modules.specs.Positions.{has};
ghost use Rattle.relation_solver.specs.declared.Relations.TheVariants.{Unreached};
ghost use Rattle.relation_solver.specs.Zero.{HasZeroAlone};
ghost use Rattle.relation_solver.specs.Solving.{OnRows};
ghost use Rattle.relation_solver.specs.Laws.{FollowStates};

use crate::Relations;
use lead_basis::{Basis, Memory, bases_tell_their_modules};
use row_modules::RowSet;
use std::alloc::Global;

/// The relations of a module. Bit i of `visible` stands for position i, and the constant's position 16 is always visible.
/// There is no refusal but out of memory.
pub fn relations(alloc: Global, module: &Basis<17>, visible: u32) -> Result<Relations, Memory>
    requires constant { IsTrue (has visible 16) }
    ensures unreached { IfOk result (λ r. (r ≡ Unreached) ↔ HasZeroAlone 17 (Contains «module».now)) }
    ensures reduced { IfOk result (λ r. OnRows r (λ rows. IsReduced rows)) }
    ensures generates { IfOk result (λ r. OnRows r (λ rows. Generates 17 rows (Annihilates visible (IsCombination 17 (Contains «module».now))))) }
    ensures all { IfOk result (λ r. OnRows r (λ rows. (a : List ℕ) → IsCombination 17 (Contains rows) a ↔ Annihilates visible (IsCombination 17 (Contains «module».now)) a)) }
{
    module.known();
    bases_tell_their_modules();
    if module.rows().is_empty() {
        return Ok(Relations::Unreached);
    }
    let rows = module.annihilator(alloc, visible)?;
    Ok(Relations::Rows(rows))
}

/// From a module to states that span it. Nothing runs here: the contract is the law.
pub fn relations_follow_states<P: RowSet>()
    ensures { FollowStates P.member }
{}
