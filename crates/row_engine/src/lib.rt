//! Modules of rows at nodes, grown along moves to a fix point.
//!
//! [`Nodes`] holds for each node a basis of rows of N words. A row is offered to a node; where the node's module grows, the
//! rows that its basis wrote are marked, and the node is queued, unless it is already. [`close`] takes a node from the queue
//! and pushes its marked rows, all in one turn, along the moves from it, until none is queued. What moves make of rows,
//! along one edge or of the rows of two nodes, is told by an implementation of [`Moves`]: the modules then lie in those of
//! its states, and have what moves make of their rows. Each placement of a row is counted on a `Steps` counter, and pays for
//! a turn.
//!
//! ```text
//! let mut nodes = Nodes::<17>::new(alloc, program.nodes)?;
//! nodes.offer(entry, &rows, &mut steps)?;
//! close(alloc, &moves, &mut nodes, &mut steps)?;
//! ```
#![tactic(auto)]

mod changed;
mod empty;
mod lookups;
mod moves;
mod nodes;
mod take;
mod turns;

pub use lookups::{edges_out, empty_lists};
pub use moves::Moves;
pub use nodes::Nodes;
pub use turns::close;
