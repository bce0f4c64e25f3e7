//! The verdict of a checked run, as text.
//!
//! ```text
//! affine-run 1
//! steps 7
//! stop break 0x10084
//! found 1 step 3 at 0x1007c detail 0x0
//! end
//! ```
#![tactic(auto)]

mod writer;

pub use writer::{has_found, write_verdict};
