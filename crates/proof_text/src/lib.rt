//! Proof files: what proves an analysis, as text.
//!
//! A [`ProofFile`] has the tracked names, rows of maps for each head of the program's blocks, rows of states for each
//! procedure's entry, and what is claimed of points. A row of the first two is kept as a [`SparseRow`], the words of it that
//! aren't 0, so that a file takes memory as its text is long; [`dense`] gives the row of 289 or of 17 words, and
//! [`sparse_rows`] goes back. [`write_proof`] gives the text by the grammar in `specs/Text.antt`, byte for byte. Whether the
//! rows prove the claims is left to others.
//!
//! ```text
//! let text = write_proof(alloc, &file)?; // "affine-proof 1\ntrack a0\nhead 0x10078 0x10078\nrow 0:0x1 288:0x1\n.."
//! ```
#![tactic(auto)]

mod files;
mod rows;
mod sparse;
mod writer;

pub use files::{EntryRows, HeadRows, ProofFile};
pub use rows::{SparseRow, WordAt};
pub use sparse::{dense, sparse_rows};
pub use writer::write_proof;
