//! Faults.

use entry_values::Value;

/// What a walk shows of a register: where it was changed last, where the walk ends, and its value there.
#[derive(Clone, Copy, Debug, PartialEq, Eq)]
pub struct Fault {
    pub changed: u64,
    pub address: u64,
    pub value: Value,
}
