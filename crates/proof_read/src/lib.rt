//! Proof files, read as far as the line behind which claims stand.
//!
//! [`read_front`] goes over the lines behind the tracked names: heads, each with its rows, then procedures, each with its
//! rows, then the line `claims`. It answers what they tell and what is left, or the number of the first line that the
//! grammar doesn't allow at its place. It is exact both ways: the text of what was read is the text that was gone over, and
//! the text of heads and procedures is read as these, out of memory aside. `specs/Fronts.antt` tells how lines are judged, one
//! after another. The first two lines and the claims are left to others.
//!
//! ```text
//! read_front(alloc, b"head 0x10078 exit\nentry 0x10078\nrow 16:0x1\nclaims\nend\n") // Ok(..), and "end\n" is left
//! read_front(alloc, b"row 16:0x1\n") // Err(FrontFault::Syntax(3)), a row under no head
//! ```
#![tactic(auto)]

mod front;
mod steps;

pub use front::{Front, FrontFault, FrontRead, read_front};
