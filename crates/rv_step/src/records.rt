//! What is told of a step, and why there is none.

/// A store: the low `width` bytes from `address` on, as words, before and after.
#[derive(Clone, Copy, Debug, PartialEq, Eq)]
pub struct StoreRec {
    pub address: u64,
    pub width: u8,
    pub before: u64,
    pub after: u64,
}

/// A step: the number of steps made before it, whether it was made, its address, the instruction word
/// there and its bytes, the registers before it, the address after it, and its store.
#[derive(Clone, Copy, Debug, PartialEq, Eq)]
pub struct StepRec {
    pub index: u64,
    pub made: bool,
    pub pc: u64,
    pub word: u32,
    pub length: u8,
    pub regs: [u64; 32],
    pub next: u64,
    pub store: Option<StoreRec>,
}

/// Why no step was made.
#[derive(Clone, Copy, Debug, PartialEq, Eq)]
pub enum Stop {
    /// Nothing is fetched at this pc.
    Outside(u64),
    /// This word means nothing.
    Illegal(u32),
    /// EBREAK at this pc.
    Break(u64),
    /// ECALL with 93 in a7; the value is a0.
    Exit(u64),
    /// Any other ECALL; the value is a7.
    Ecall(u64),
    /// There was no memory for a store.
    Memory,
}
