//! Walks of a procedure's points, with the state that one way makes, and no other.
//!
//! The crate promises that [`walked`] answers where a walk from a procedure's entry by given addresses comes
//! to: the state there, and the point at which a register was changed last; or none, if one of its steps is
//! none of the flow. By the law of [`laws`] a frame of a run that goes by these addresses is there, and this
//! state describes the machine. No walk is looked for here.
//!
//! ```text
//! walked(alloc, &image, &rows, 0x10004, 8, &[0x10008, 0x1000c])? // s0 at 0x1000c, from 0x10004 by 0x10008
//! ```
#![tactic(auto)]

pub mod laws;
mod places;
mod stops;
mod walks;

pub use places::{told_at, value_in};
pub use stops::Stop;
pub use walks::{flow_here, is_among, onto, walked};
