//! Tests of what stands below an analysis: words, files, points, offsets and programs.
//!
//! The crate has nothing but tests, a file for each crate that is tested, so that no crate is proved twice
//! for its tests.
#![tactic(auto)]

#[cfg(test)]
mod fakes;
#[cfg(test)]
mod frames;
#[cfg(test)]
mod generated_files;
#[cfg(test)]
mod halves;
#[cfg(test)]
mod images;
#[cfg(test)]
mod lifts;
#[cfg(test)]
mod points;
#[cfg(test)]
mod system;
#[cfg(test)]
mod words;
#[cfg(test)]
mod written_files;
