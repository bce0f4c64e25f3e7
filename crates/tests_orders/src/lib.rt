//! Tests of whole orders: what words are as an order, and which status and text an order gets over files and sinks in memory,
//! and over those of the system.
//!
//! The crate has nothing but tests, so that no crate is proved twice for its own.
#![tactic(auto)]

#[cfg(test)]
mod calls;
#[cfg(test)]
mod code_tests;
#[cfg(test)]
mod compressed_tests;
#[cfg(test)]
mod fault_tests;
#[cfg(test)]
mod narrow_tests;
#[cfg(test)]
mod order_tests;
#[cfg(test)]
mod refute_tests;
#[cfg(test)]
mod report_tests;
#[cfg(test)]
mod symbol_tests;
#[cfg(test)]
mod watch_tests;
#[cfg(test)]
mod words_tests;
