//! What is known of moves between nodes.

ghost use Rattle.std.specs.Prelude.{◌≡◌, ℕ, ◌<◌, List, Contains};
ghost use Rattle.row_modules.specs.Modules.{IsCombination};
ghost use Rattle.row_engine.specs.States.{IsState};
ghost use Rattle.row_engine.specs.Turns.{IsSound, Turns};

use crate::Nodes;
use lead_basis::{Memory, Steps};
use std::alloc::Global;
use std::sync::ledger::Ledger;
use word_rows::Row;

/// Moves between nodes. A move along one edge makes rows of a row of its start; a move that joins two nodes makes rows of a
/// row of each. `states` are rows that hold each node's module, whatever the implementation takes for them.
pub trait Moves<const N: usize> {
    ghost use Rattle.std.specs.Prelude.{ℕ, List};

    ghost formed: { Self → Type 0 };

    ghost count: { Self → ℕ };

    ghost makes: { Self → ℕ → ℕ → List ℕ → List ℕ → Type 0 };

    ghost joins: { Self → ℕ → ℕ → ℕ → List ℕ → List ℕ → List ℕ → Type 0 };

    ghost states: { Self → ℕ → List ℕ → Type 0 };

    /// Offers all that moves make of these rows of a node, alone and with the rows of other nodes.
    fn push<L: Ledger>(
        &self,
        alloc: Global,
        nodes: &mut Nodes<N>,
        node: u32,
        rows: &[Row<N>],
        steps: &mut Steps<L>,
    ) -> Result<(), Memory>
        requires formed { formed self.now }
        requires node { node < count self.now }
        requires is { IsState N (count self.now) nodes.old }
        requires sound { IsSound N (states self.now) nodes.old }
        requires rows { (v : List ℕ) → Contains rows.now v → IsCombination N (states self.now node) v }
        ensures { Turns N (makes self.now) (joins self.now) (states self.now) nodes.old nodes.new node rows.now result steps.old steps.new };
}
