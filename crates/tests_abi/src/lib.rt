//! Tests of what is told of registers: twelve worked cases, checked by hand, and calls of the program.
//!
//! The crate has nothing but tests, so that no crate is proved twice for its tests.
#![tactic(auto)]

#[cfg(test)]
mod calls;
#[cfg(test)]
mod cases;
#[cfg(test)]
mod worked;
