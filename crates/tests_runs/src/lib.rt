//! Tests of runs: the steps of the machine, and whole runs under watches.
//!
//! The crate has nothing but tests, so that no crate is proved twice for its tests.
#![tactic(auto)]

#[cfg(test)]
mod against_reports;
#[cfg(test)]
mod runs;
#[cfg(test)]
mod steps;
