//! What is told of a register of a procedure, by a settled table and a walk.
//!
//! The crate promises that [`verdict_of`] is what `specs/Verdicts.antt` says of the table's summary, its ends
//! and a walk: `Kept` where the summary promises it, `Never` where the procedure has no end, `Clobbered` where
//! the walk, evaluated without joins, ends with another value, and `Unknown` with the first cause else; and that
//! [`ends`], [`ending`] and [`depth_of`] are a table's ends, the procedures that have one, and how far sp goes
//! down. A walk that is none shows nothing; none is looked for here.
//!
//! ```text
//! let all = ends(alloc, &image, &rows)?;
//! let ending = ending(alloc, all.as_slice())?;
//! verdict_of(alloc, &image, &rows, all.as_slice(), ending.as_slice(), 0x10004, 8, &walk)?
//! ```
#![tactic(auto)]

mod causes;
mod collect;
mod depth;
mod depths;
mod faults;
mod found;
mod live;
mod verdicts;
mod ways;

pub use causes::verdict_of;
pub use collect::ends;
pub use depth::{Depth, Level};
pub use depths::{depth_of, levels};
pub use faults::Fault;
pub use found::{is_away, is_lost, is_own, shows};
pub use live::ending;
pub use verdicts::{Cause, Verdict, Why};
pub use ways::{End, Way};
