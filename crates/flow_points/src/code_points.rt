//! Points and flow, as plain data.

use refusals::FlowRefusal;
use rv_decode::Instr;

/// An address, with the entry of the procedure in which it is reached.
#[derive(Clone, Copy, Debug, PartialEq, Eq, PartialOrd, Ord, Hash)]
pub struct Point {
    pub proc_entry: u64,
    pub address: u64,
}

/// Where the flow goes on from an instruction: addresses, wrapping modulo 2^64.
#[derive(Clone, Copy, Debug, PartialEq, Eq)]
pub enum Flow {
    /// To the next instruction.
    Next(u64),
    /// To the target alone.
    Jump(u64),
    /// To either.
    Branch { next: u64, target: u64 },
    /// Into the procedure at the target, and after its return to the next instruction.
    Call { target: u64, next: u64 },
    /// Back to the caller.
    Return,
    /// Nowhere.
    Halt,
}

/// A point with the instruction word at its address, the word's length in bytes, 2 or 4, its instruction
/// and the instruction's flow.
#[derive(Clone, Copy)]
pub struct CodePoint {
    pub point: Point,
    pub word: u32,
    pub length: u8,
    pub instr: Instr,
    pub flow: Flow,
}

/// What there is at a point: its code or the cause that makes it bad, and whether it is the second half
/// of a pair.
#[derive(Clone, Copy)]
pub(crate) struct Site {
    pub code: Result<CodePoint, FlowRefusal>,
    pub ends_pair: bool,
}
