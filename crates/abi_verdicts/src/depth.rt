//! A depth.

use entry_values::Value;

/// How many bytes sp goes below its word at the entry of a procedure, and whether it is known by that word at
/// each point.
#[derive(Clone, Copy, Debug, PartialEq, Eq)]
pub struct Depth {
    pub bytes: u64,
    pub known: bool,
}

/// The value of sp at a point of a procedure.
#[derive(Clone, Copy, Debug)]
pub struct Level {
    pub procedure: u64,
    pub sp: Value,
}
