//! What is asked of a program and a row before a row is refuted, of programs that stand for code: it is always so.
//!
//! A call's instruction is a JAL or a JALR that links, and all that it assigns is the address behind it, which is a constant.
//! So no call of a lifted program has an unknown assignment before it ([`lifted_calls_are_plain`]). A row whose names are seen
//! in a point's procedure is 0 at each position that isn't visible at the point's node ([`seen_rows_are_visible`]). The
//! functions run nothing.
#![tactic(auto)]

mod laws;

pub use laws::{lifted_calls_are_plain, seen_rows_are_visible};
