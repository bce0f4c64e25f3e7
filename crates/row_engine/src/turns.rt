//! The loop over queued nodes.

ghost use Rattle.std.specs.Prelude.{◌≡◌, ℕ, List, Contains};
ghost use Rattle.row_modules.specs.Modules.{AreRows};
ghost use Rattle.row_engine.specs.States.{rows_at, IsUnmarkedAt, AreQueued, IsState};
ghost use Rattle.row_engine.specs.Turns.{IsSound, Closes};

use crate::{Moves, Nodes};
use lead_basis::{Memory, Steps};
use std::alloc::Global;
use std::sync::ledger::Ledger;

/// Pushes the marked rows of queued nodes along all moves, until no node is queued.
pub fn close<const N: usize, M: Moves<N>, L: Ledger>(
    alloc: Global,
    moves: &M,
    nodes: &mut Nodes<N>,
    steps: &mut Steps<L>,
) -> Result<(), Memory>
    requires formed { M.formed moves.now }
    requires rows { (u : ℕ) → AreRows N (M.states moves.now u) }
    requires is { IsState N (M.count moves.now) nodes.old }
    requires sound { IsSound N (M.states moves.now) nodes.old }
    requires queued { AreQueued nodes.old }
    requires marked { (u : ℕ) (v : List ℕ) → Contains (rows_at nodes.old u) v → ¬ IsUnmarkedAt nodes.old u v }
    ensures { Closes N (M.count moves.now) (M.makes moves.now) (M.joins moves.now) (M.states moves.now) nodes.old nodes.new result steps.old steps.new }
{
    nodes.known();
    while let Some(node) = nodes.next() {
        let rows = nodes.changed(alloc, node)?;
        moves.push(alloc, nodes, node, rows.as_slice(), steps)?;
    }
    Ok(())
}
