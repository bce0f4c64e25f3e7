//! Whether a row holds at a point of a file, or a path that breaks it: from a file's bytes, a track list, a point and a row to
//! the text.
//!
//! [`refute_row`] lifts the file's code to a program whose assignments say what becomes of the tracked names (`affine_lift`),
//! reads the row over the names that are seen in the point's procedure (`row_read`), asks `refute_path` whether it holds at
//! the point, and gives the text of the answer (`refute_text`). Else it says what stands in the way: what an analysis of the
//! file would be refused for, that there is no such point, or the row's first term that breaks a rule. That a text is of a
//! row's form is asked before. The path is one over the plain program, so that large files cost much time and memory.
//!
//! ```text
//! refute_row(alloc, &bytes, "a0", Point { proc_entry: 0x10078, address: 0x1007c }, "1*a0 -5")? // "affine-refute 1\nholds\nend\n"
//! ```
#![tactic(auto)]

mod accept;
mod asking;
mod refusal;

pub use asking::refute_row;
pub use refusal::RefuteRefusal;
