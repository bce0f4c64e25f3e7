//! The block program of a program: its paths between heads, where a chain of merged nodes is one edge.
//!
//! Which nodes are merged a table tells (`merged_heads`), which also has the laws of block programs. [`contract_merged`]
//! searches for a table and takes it where it is right and leaves no more heads than the simple notion, by which
//! [`contract`] goes: a node is inner where one edge leads to it, from a smaller node that no other edge leaves, and that edge
//! calls nothing; entries and exits are never inner. Heads by this notion are what limits count ([`Blocks::simple_heads`]),
//! whichever table was taken. What is costly is solved on the small program, and [`push`] moves the states on along the
//! edges from parents to merged nodes, in rising order. What is solved is left to others.
//!
//! ```text
//! let blocks = contract_merged(alloc, &program)?;
//! match blocks.node_of(node) {
//!     Some(head) => reached.at(head),
//!     None => push(alloc, &edges[blocks.edge_into(node)], states_of_parent, &mut steps)?,
//! }
//! ```
#![tactic(auto)]

mod chain;
mod contraction;
mod head_numbers;
mod inner_nodes;
mod pushes;
mod small_edges;
mod tallies;

ghost use Rattle.std.specs.Prelude.{◌≡◌, ◌<◌, IsSome, Some, length};
ghost use Rattle.block_program.specs.Numbers.{number_of, edge_number_of};

use affine_prog::Program;
pub use contraction::{contract, contract_merged};
use merged_heads::Merging;
pub use pushes::push;
use sqlite_items::Items;
use std::marker::Model;

/// The block program of a program, and what stands for each of the program's nodes.
#[derive(Debug, Drop)]
pub struct Blocks {
    small: Program,
    /// For each node its number in the block program, where it is a head.
    numbers: Items<Option<u32>>,
    merging: Merging,
    /// How many heads there are by the simple notion.
    simple_heads: u32,
}

impl Model for Blocks {
    ghost use Rattle.block_program.specs.Contractions.{Contraction};

    ghost Value = { Contraction };

    ghost view = { λ b. record { small = b.small; numbers = b.numbers; merging = b.merging; simple_heads = b.simple_heads } };
}

impl Blocks {
    /// The block program.
    pub fn small(&self) -> &Program
        ensures { result.now ≡ self.now.small }
    {
        &self.small
    }

    /// The number of a head in the block program; nothing for a merged node.
    pub fn node_of(&self, node: u32) -> Option<u32>
        requires { node < length self.now.numbers }
        ensures { result ≡ number_of self.now node }
    {
        self.numbers.as_slice()[node as usize]
    }

    /// The number, in the program, of the edge from the parent of a merged node.
    pub fn edge_into(&self, node: u32) -> u32
        requires node { node < length self.now.merging.edges_into }
        requires merged { IsSome (edge_number_of self.now node) }
        ensures { edge_number_of self.now node ≡ Some result }
    {
        self.merging.edges_into.as_slice()[node as usize].unwrap_or(0)
    }

    /// How many heads the program has by the simple notion.
    pub fn simple_heads(&self) -> u32
        ensures { result ≡ self.now.simple_heads }
    {
        self.simple_heads
    }
}

/// The heads of a table in their order, and for each node its number among them.
#[derive(Drop)]
struct Numbered {
    merging: Merging,
    heads: Items<u32>,
    numbers: Items<Option<u32>>,
}

/// Which edges there are at a node: none, the one of this number, or more.
#[derive(Clone, Copy, PartialEq, Eq, Debug)]
enum Tally {
    Nothing,
    One(u32),
    Many,
}
