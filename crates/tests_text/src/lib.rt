//! The tests of the crates between numbers and texts.
//!
//! They stand apart from what they test, so that no crate is proved again for its tests. Each file has those of one crate,
//! with values from the specification of its texts, `docs/FORMATS.md`, and nothing else stands here.
//!
//! ```text
//! numbers::numerals // number_text: 0, 0x1007c and others, each as it is written
//! ```
#![tactic(auto)]

#[cfg(test)]
mod answers;
#[cfg(test)]
mod instructions;
#[cfg(test)]
mod numbers;
#[cfg(test)]
mod numerals;
#[cfg(test)]
mod proof_files;
#[cfg(test)]
mod readings;
#[cfg(test)]
mod refused;
#[cfg(test)]
mod registers;
#[cfg(test)]
mod reports;
#[cfg(test)]
mod verdicts;
