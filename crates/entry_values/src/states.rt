//! What is known at a point of a procedure.

use crate::values::Value;
use sqlite_items::Items;

/// Eight bytes at an offset from the entry's sp.
#[derive(Clone, Copy, Debug, PartialEq, Eq)]
pub struct Slot {
    pub offset: u64,
    pub value: Value,
}

/// The values of the 32 registers, and slots.
#[derive(Drop)]
pub struct State {
    pub values: [Value; 32],
    pub slots: Items<Slot>,
}
