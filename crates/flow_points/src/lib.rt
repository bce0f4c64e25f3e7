//! Procedures and points: which instructions of an image may be reached, and how the flow goes on from
//! each.
//!
//! The entry is a procedure, and so is the target of each reached call. A point is an address with the
//! procedure in which it is reached. [`recover`] gives exactly the points that end a walk along the
//! flow from the entry, or refuses the code: where there are too many points, else for the least address
//! of a bad point. What the instructions do with registers and memory is left to others.
//!
//! ```text
//! let points = recover(alloc, &image)?;
//! let first = points.find(points.entry(), points.entry()); // Some(0) where no procedure stands lower
//! ```
#![tactic(auto)]

mod causes;
mod code_points;
mod flows;
pub mod laws;
mod points;
mod recovery;
mod sites;
mod walks;

pub use code_points::{CodePoint, Flow, Point};
pub use points::Points;
pub use recovery::recover;
pub use refusals::FlowRefusal;
