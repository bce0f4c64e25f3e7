//! The text of an answer whether a row holds.
//!
//! [`write_refuted`] gives the text of an answer of `refute_path` over the program of an image's points, by the grammar in
//! `specs/Text.antt`, byte for byte: that the row holds, or a start, numbered derivations, the numbers of those that make a
//! path to the point, and the row's value behind it. Nodes are told by the addresses of their points, registers by their
//! names. That the answer is right is left to whoever made it.
//!
//! ```text
//! affine-refute 1
//! broken
//! start a0=0
//! 1 open 0x10078
//! 2 step 1 0x1007c
//! path 2
//! value 1
//! end
//! ```
#![tactic(auto)]

mod writer;

pub use writer::write_refuted;
