//! Counterexamples without the derivations that their path doesn't need.
//!
//! `refute_path` writes a derivation for each map that it placed. [`needed_alone`] keeps of an answer those that the path has
//! and those that a kept one names, numbers them anew in their order, and leaves the rest of it as it is: what breaks a row
//! breaks it still, and each derivation is needed.
//!
//! ```text
//! let answer = needed_alone(alloc, &refute(alloc, &program, node, &row, &mut steps)?)?;
//! ```
#![tactic(auto)]

mod marks;
mod renumber;

pub use renumber::needed_alone;
