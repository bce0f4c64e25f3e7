//! Summaries of procedures: what the maps of the level paths to each node span.
//!
//! [`summaries`] gives for each node of a well-formed program a basis of the module that the maps of all level paths to it
//! generate, as rows of 289 words. [`exits`] gives the same for the exit of each procedure alone, and spares the procedures
//! that never return. Both count each change of a basis on the caller's counter, and never more than a bound that nodes and
//! names determine. Where memory is wanting there is no answer. What open paths reach is left to the crates above.
//!
//! ```text
//! let summaries = summaries(alloc, &program, &mut steps)?;
//! summaries.levels()[program.nodes as usize - 1].member(&map)
//! ```
#![tactic(auto)]

mod answers;
mod levels;
mod lookups;
mod openings;
mod push;
mod returning;
mod solve;
mod take;
mod worklist;

pub use answers::{Exits, Summaries};
pub use levels::{exits, summaries};
use map_modules::Mat;
use sqlite_items::Items;

/// What is prepared for each edge, and where edges and calls are looked up.
#[derive(Drop)]
struct Tables {
    prepared: Vec<Items<Mat>>,
    out: Vec<Items<u32>>,
    back: Vec<Items<u32>>,
}
