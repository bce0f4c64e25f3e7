//! Relations of the low 32 bits, from a file's bytes and a track list to the report and its text.
//!
//! Code that computes on 32-bit numbers is affine modulo 2^32 where it isn't modulo 2^64: ADDIW sets its register to the
//! sign-extended low half of a sum, of which the low 32 bits alone are that sum. [`narrow_analyse`] lifts a file's code to
//! a program whose assignments say what becomes of the low 32 bits of the tracked names (`affine_lift`), finds the states at
//! its nodes as the analysis modulo 2^64 does (`analyser_core`), and gives for each point the one reduced narrow basis of
//! the relations that hold modulo 2^32 after every path (`narrow_solver`). [`narrow_text`] gives the report's text. Nothing is
//! promised of runs of the machine.
//!
//! ```text
//! let report = narrow_analyse(alloc, &bytes, "a0,a1,0x10080:-4", &mut steps)?;
//! let text = narrow_text(alloc, &report)?; // "affine-narrow 1\ntrack a0,a1,0x10080:-4\n.."
//! ```
#![tactic(auto)]

mod accept;
mod analysis;
mod laws;
mod points;
mod reports;
mod text;

pub use analysis::{narrow_analyse, narrow_analyse_uncounted};
pub use laws::narrow_words_are_signed;
pub use reports::NarrowReport;
pub use text::narrow_text;
