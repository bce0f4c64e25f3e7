//! A tally.

/// How many registers are kept, clobbered, unknown, and of procedures that never return.
#[derive(Clone, Copy, Debug, PartialEq, Eq)]
pub struct Tally {
    pub kept: u64,
    pub clobbered: u64,
    pub unknown: u64,
    pub never: u64,
}
