//! What is answered of a file: of each procedure and each saved register, whether it is kept.
//!
//! The crate promises that [`answer_to`] is what `specs/Answers.antt` says: the line of what refuses the file or the
//! word for its entry, or what a settled table of its procedures tells, as lines for scripts or as text for people, with
//! the status; and by the law of [`laws`] that a register which is told to be kept is kept in each run of the machine
//! that keeps what is assumed.
//!
//! ```text
//! let (status, text) = answer_to(alloc, &bytes, b"demo.elf", Form::People(false), Some("main"))?;
//! ```
#![tactic(auto)]

mod answers;
mod entries;
mod forms;
pub mod laws;
mod roots;

pub use answers::{answer_to, answer_to_check};
pub use forms::Form;
pub use roots::roots_of;
