//! A row and a point that somebody asks for, read from their texts.
//!
//! A row is written as in a report: terms, the first of them without a sign, and a constant unless it is 0. Any text without a
//! space counts as a name until it is asked what it names: [`row_shape`] tells whether a text is such a row's, [`read_row`]
//! gives the row over the tracked names, or the first term that names nothing there or whose name doesn't stand behind that of
//! the term before it. [`read_point`] gives the procedure and the address of a point's text. Nothing costs memory. Whether
//! there is such a point, is left to others.
//!
//! ```text
//! row_shape("1*a0 -5") // true
//! read_row("1*a0 -5", &tracked, 0x10078) // Ok(..), 1 at a0's position and 2^64 - 5 at the last
//! read_row("1*a0 +1*zz", &tracked, 0x10078) // Err(RowRefusal::UnknownName(2))
//! read_point("0x10078,0x1007c") // Some((0x10078, 0x1007c))
//! ```
#![tactic(auto)]

mod fronts;
mod point;
mod refusal;
mod row;

pub use point::read_point;
pub use refusal::RowRefusal;
pub use row::{read_row, row_shape};
