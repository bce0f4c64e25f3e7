//! Findings.

use abi_verdicts::{Depth, Verdict};
use sqlite_items::Items;

/// What is told of a register of a procedure, and the addresses of the walk that shows it, where it is clobbered,
/// the procedure's entry left out.
#[derive(Drop)]
pub struct Finding {
    pub procedure: u64,
    pub register: u8,
    pub verdict: Verdict,
    pub walk: Items<u64>,
}

/// A procedure, how far sp goes down in it, and what is told of its registers.
#[derive(Drop)]
pub struct Routine {
    pub procedure: u64,
    pub depth: Depth,
    pub findings: Items<Finding>,
}
