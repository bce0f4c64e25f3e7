//! What is told of each procedure of a table, with the walks that show it.
//!
//! The crate promises that [`routines`] tells of each procedure of a table how far sp goes down in it, and of
//! each register that is asked for the verdict by the walk that stands beside it. That a walk is found where
//! there is one is not promised: a register of which none is found is unknown.
//!
//! ```text
//! let told = routines(alloc, &image, &rows, ends.as_slice(), ending.as_slice(), &[2, 1, 8])?; // sp, ra, s0
//! ```
#![tactic(auto)]

mod finding;
mod findings;
mod search;

pub use finding::{Finding, Routine};
pub use findings::routines;
