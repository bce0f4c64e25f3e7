//! The lines of reports, read: the inverse of writing them.
//!
//! Each call says of a text exactly what the line tells whose text it is, or that it is no such line's. Names count as
//! texts without a space until it is asked what they name. Which line may follow which, and whether the rows of a point
//! are reduced, is left to others. No line costs memory but that of the tracked names.
//!
//! ```text
//! read_line(b"at 0x10078") // Some(Line::At(0x10078))
//! read_relation(names, 0x10078, b"1*a0 -5") // Some(Relation::Row(..)), 1 at a0's position and 2^64 - 5 at the last
//! ```
#![tactic(auto)]

mod cutting;
mod faults;
mod lines;
mod names;
mod relation;
mod sums;
mod track;
mod words;

pub use cutting::{behind, cut_at};
pub use faults::TrackFault;
pub use lines::{Line, read_header, read_line};
pub use names::read_name;
pub use relation::{Relation, read_relation};
pub use track::read_track;
pub use words::{Word, read_lead, read_word};
