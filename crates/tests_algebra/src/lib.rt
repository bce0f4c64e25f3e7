//! The tests of the crates between rows and the states of programs.
//!
//! They stand apart from what they test, so that no crate is proved again for its tests. Each file has those of one crate,
//! with values worked out by hand; `small_programs` has the programs that several of them share. Nothing else stands here.
//!
//! ```text
//! summaries::levels_by_hand // call_summaries: a loop, and a procedure that calls itself
//! ```
#![tactic(auto)]

#[cfg(test)]
mod bases;
#[cfg(test)]
mod blocks;
#[cfg(test)]
mod certificates;
#[cfg(test)]
mod laws;
#[cfg(test)]
mod maps;
#[cfg(test)]
mod merged;
#[cfg(test)]
mod narrow;
#[cfg(test)]
mod programs;
#[cfg(test)]
mod refutations;
#[cfg(test)]
mod relations;
#[cfg(test)]
mod rows;
#[cfg(test)]
mod small_programs;
#[cfg(test)]
mod states;
#[cfg(test)]
mod summaries;
#[cfg(test)]
mod verdicts;
