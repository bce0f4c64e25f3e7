//! The relations of a module of states.
//!
//! A state is a row of 17 words with 1 at position 16. A relation is a row a of 17 words, and it holds at a state v where the
//! sum of products a . v wraps to 0. `solve::relations` takes a basis of the module that states span, and the positions that a
//! relation may use, and gives the reduced basis of all rows on these positions that hold at every state. Where the module
//! is zero there is no state, and the answer says so. Which states span a module is left to the crates above:
//! `relations_follow_states` is the law that leads from the module to its states.
//!
//! ```text
//! // the module of the states with any multiple of 8 at position 0: (8 at 0) and (1 at 16)
//! solve::relations(alloc, &module, 0x10001)?     // Rows: 2^61 at position 0
//! ```
#![tactic(auto)]

pub mod solve;

use lead_basis::Basis;
pub use solve::relations_follow_states;

/// The relations that hold at each state of a set.
#[derive(Drop)]
pub enum Relations {
    /// The set is empty.
    Unreached,
    /// The reduced basis that generates them.
    Rows(Basis<17>),
}
