//! Tables of what is known at each address of each procedure, and the check that a table is settled.
//!
//! The crate promises that where [`is_settled`] says yes of points that [`lined_point`] made, the table that
//! the rows are is settled: each procedure has its entry, and no point owes anything to its flow, one condition
//! for each point; and that the table's lines are what the image has at their addresses. How a table was filled
//! is nothing to it.
//! What a settled table tells of runs is proved above.
//!
//! ```text
//! if is_settled(alloc, &image, &rows)? { .. }
//! ```
#![tactic(auto)]

mod behind;
mod checks;
mod flows;
mod less;
mod lookups;
mod order;
mod places;
mod rows;
mod settled;

pub use behind::returned;
pub use checks::{CONVENTION, by_convention, is_itself};
pub use flows::flow_at;
pub use lookups::{find, has_procedure, is_silent};
pub use places::{has_code, line_at, lined_point, opaque_at};
pub use rows::{Guess, Line, Point, Rows, Told};
pub use settled::is_settled;
