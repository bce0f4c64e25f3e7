//! Relations of a module of states modulo 2^32.
//!
//! A state is a row of 17 words with 1 at position 16. A narrow relation is a row a of 17 words below 2^32, and it holds at a
//! state v where the sum of products a . v is a multiple of 2^32. `solve::narrow_relations` takes a basis of the module that
//! states span, and the positions that a relation may use, and gives the one reduced narrow basis of all rows on these
//! positions that hold at every state. The rows of the states' basis are multiplied by 2^32, so that what annihilates them
//! modulo 2^64 is what holds modulo 2^32, and the rows with pivot 2^32 are dropped from the reduced annihilator: each is 2^32
//! times a unit row. Which states span a module is left to the crates above: `narrow_relations_follow_states` is the law that
//! leads from the module to its states.
//!
//! ```text
//! // the module of the states with any multiple of 8 at position 0: (8 at 0) and (1 at 16)
//! solve::narrow_relations(alloc, &module, 0x10001)?     // Rows: 2^29 at position 0
//! ```
#![tactic(auto)]

mod meaning;
pub mod solve;

pub use meaning::{narrow_answers_are_one, narrow_relations_follow_states};
