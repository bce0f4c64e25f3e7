//! What words are as an order.
//!
//! The crate runs nothing. `orders` tells an order by what `clap` makes of the words; here laws say it in plain words: which
//! words each order takes, whatever its texts are, and which words are none.
//!
//! ```text
//! words_are_orders(); // ghost: the laws are the function's clauses
//! ```
#![tactic(auto)]

pub mod laws;
