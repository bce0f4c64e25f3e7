//! Merged nodes of a program, and the block program of its heads: what comes to a merged node is what comes to its head, moved
//! along a chain of assignments.
//!
//! A node is merged where all edges into it bring the same: none of them calls, and each passes on one class of nodes as it
//! is, or makes the same assignments to what one class brings. Entries and exits are never merged. The other nodes are heads.
//! A table tells the merged nodes, each with an edge from a smaller node, its parent, and the class of each node. One local
//! condition for each edge and each node says that the table is right, whatever search made it: [`is_merged_table`] tests it,
//! and [`merged_table`] searches for a table and gives it where it passes. `specs/BlockPrograms` defines the program of the
//! heads alone, in which the assignments of a chain stand before those of the edge behind it; `laws` has what holds of every
//! right table: at each head the maps of the level paths and the states of the open paths are the same in both programs, and
//! what comes to a merged node is what its edge makes of what comes to its parent. The block program is made in
//! `block_program`.
//!
//! ```text
//! match merged_table(alloc, &program)? {
//!     Some(merging) => blocks_by(merging),
//!     None => blocks_by(simple_table(alloc, &program)?),
//! }
//! ```
#![tactic(auto)]

mod check;
mod kinds;
mod laws;
mod search;

pub use check::is_merged_table;
pub use kinds::assigns_of;
pub use laws::{
    block_programs_are_formed, heads_tell_alike, level_paths_are_kept, merged_nodes_follow,
    open_paths_are_kept,
};
pub use search::merged_table;
use sqlite_items::Items;

/// What stands for each node: the number of the edge from its parent where it is merged, and the node that stands for its
/// class.
#[derive(Debug, Drop)]
pub struct Merging {
    pub edges_into: Items<Option<u32>>,
    pub classes: Items<u32>,
}
