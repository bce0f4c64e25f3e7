//! Programs over affine assignments, and what their paths are and compute.
//!
//! A program has procedures, nodes that each belong to one procedure, and edges. An edge makes a list of assignments, or
//! makes one and then calls a procedure. The crate gives the types, the test that a program is well formed, and, in
//! `specs/`, what the analysis above speaks of: level paths, open paths, relations that hold, certified registers. They
//! follow Müller-Olm and Seidl, "Analysis of Modular Arithmetic" (2007); slots are this project's own. The crate analyses
//! nothing: each pass is in a crate above, and is stated over paths alone. `laws` has what holds of all paths.
//!
//! ```text
//! let add_8 = Assign::Affine(0, Row::zero().with(0, 1).with(16, 8));
//! well_formed(&program) && program.proc_of(program.procs.get(0)?.entry) == 0
//! ```
#![tactic(auto)]

mod check;
mod laws;

pub use check::well_formed;
pub use laws::{
    calls_are_bilinear, openings_are_affine, paths_end_at_nodes, paths_keep_states,
    paths_use_few_positions, relations_annihilate_states, starts_are_spanned,
    steps_are_affine_in_choices,
};
use sqlite_items::Items;
use word_rows::Row;

/// A program. Nodes, procedures and positions go by number. Where it was lifted from a file, node i is point i for i below
/// the number of points, and the exits follow in the order of their procedures.
#[derive(Debug, Drop)]
pub struct Program {
    /// How many names are tracked: they stand at the positions below it, at most 16.
    pub width: u32,
    /// The positions of registers: bit i for position i.
    pub registers: u16,
    pub procs: Items<Proc>,
    /// How many nodes there are.
    pub nodes: u32,
    /// For each node the number of its procedure.
    pub owners: Items<u32>,
    pub edges: Items<Edge>,
    /// The number of the procedure that runs first.
    pub start: u32,
}

/// A procedure: its entry and exit node, and the positions of its slots, bit i for position i.
#[derive(Clone, Copy, PartialEq, Eq, Debug)]
pub struct Proc {
    pub entry: u32,
    pub exit: u32,
    pub slots: u16,
}

/// An edge between two nodes.
#[derive(Debug, Drop)]
pub struct Edge {
    pub from: u32,
    pub to: u32,
    pub kind: Kind,
}

/// What an edge does: assignments one after the other, or assignments and then a call of a procedure, by its number.
#[derive(Debug, Drop)]
pub enum Kind {
    Do(Items<Assign>),
    Call { callee: u32, before: Items<Assign> },
}

/// An assignment to a position below 16: the sum of the row's products with the state, or any word.
#[derive(Clone, Copy, PartialEq, Eq, Debug)]
pub enum Assign {
    Affine(u8, Row<17>),
    Any(u8),
}
