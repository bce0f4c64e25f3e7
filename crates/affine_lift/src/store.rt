//! Stores to the frame, as plain data.

use rv_decode::StoreOp;

/// A store of a register at a known offset from the stack pointer at the procedure's entry.
#[derive(Clone, Copy, Debug, PartialEq, Eq)]
pub struct FrameStore {
    pub op: StoreOp,
    pub offset: u64,
    pub register: u8,
}
