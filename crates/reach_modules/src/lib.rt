//! The states that reach each node of a program.
//!
//! For each node [`Reach`] holds a basis of the module that the states of all open paths to the node generate, from all
//! starts. It is made from what procedures do: `solve::reach` takes a basis for each node, of the maps of the
//! level paths to it, and `solve::reach_by_exits` one for each procedure, of the maps of its level paths to its exit. Rows go
//! forward along edges: as a list of assignments makes them, over a call as the callee's exit makes them, and
//! into a callee by its opening. What relations hold of the states is left to the crates above.
//!
//! ```text
//! let reached = solve::reach_by_exits(alloc, &program, exits.as_slice(), &mut steps)?;
//! reached.at(node).member(&row)
//! ```
#![tactic(auto)]

mod edges;
mod made;
mod places;
mod push;
pub mod solve;
mod start;

ghost use Rattle.std.specs.Prelude.{◌≡◌, ◌<◌, length};
ghost use Rattle.affine_prog.specs.Spans.{rows_at};

use lead_basis::Basis;
use sqlite_items::Items;
use std::marker::Model;
use word_rows::Row;

/// For each node of a program, by its number, a basis of the module of the states that reach it.
#[derive(Drop)]
pub struct Reach {
    bases: Vec<Basis<17>>,
}

/// A row that is offered to a node.
#[derive(Clone, Copy, Debug, PartialEq, Eq)]
pub(crate) struct Offer {
    node: u32,
    row: Row<17>,
}

/// Where the edges that leave a node, and the basis of a procedure's exit, are found.
#[derive(Drop)]
pub(crate) struct Tables {
    /// For each node the numbers of the edges that leave it.
    out: Vec<Items<u32>>,
    /// For each procedure the place of the basis of its exit.
    places: Items<usize>,
}

impl Model for Reach {
    ghost use Rattle.std.specs.Prelude.{ℕ, List};

    ghost Value = { List (List (List ℕ)) };

    ghost view = { λ r. r.bases.items };
}

impl Reach {
    /// The basis of a node.
    pub fn at(&self, node: u32) -> &Basis<17>
        requires { node < length self.now }
        ensures { result.now ≡ rows_at self.now node }
    {
        &self.bases[node as usize]
    }
}
