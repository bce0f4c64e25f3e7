//! Verdicts.

use crate::faults::Fault;

/// Why nothing is told of a register: a jump that isn't resolved, a word that means nothing, a limit, a return
/// by ra with another word, a call of a procedure that doesn't return, or one that doesn't keep it, ways that
/// meet, or an sp that isn't known.
#[derive(Clone, Copy, Debug, PartialEq, Eq)]
pub enum Why {
    AtJump,
    AtNoWord,
    AtLimit,
    Leaves,
    Called(u64),
    BehindCall,
    Met,
    LostSp,
}

/// Why, and the address of what makes it so.
#[derive(Clone, Copy, Debug, PartialEq, Eq)]
pub struct Cause {
    pub address: u64,
    pub why: Why,
}

/// What is told of a register of a procedure.
#[derive(Clone, Copy, Debug, PartialEq, Eq)]
pub enum Verdict {
    Kept,
    Never,
    Clobbered(Fault),
    Unknown(Cause),
}
