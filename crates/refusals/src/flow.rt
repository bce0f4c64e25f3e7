//! Why code is refused.

use rv_decode::register_name;
use thiserror::Error;

/// Why the points of an image aren't given. Each but the first and the last names the address of a bad
/// point, the least one there is.
#[derive(Clone, Copy, Debug, PartialEq, Eq, Error)]
pub enum FlowRefusal {
    /// More points than this are reached.
    #[error("TooManyPoints {0}")]
    TooManyPoints(u32),
    /// Nothing is fetched at the address: the bytes of an instruction there don't lie in one executable
    /// segment, or it is no multiple of the unit.
    #[error("OutsideCode at {0:#x}")]
    OutsideCode(u64),
    /// The instruction word, which with its length stands for no instruction. The text has eight digits of the word; the
    /// line of a refused word of two bytes, whose length the file's unit tells, has four.
    #[error("NoInstruction {1:08x} at {0:#x}")]
    NoInstruction(u64, u32),
    /// A jump that links through this register, which is neither zero nor ra.
    #[error("OddLink {register} at {0:#x}", register = name(.1))]
    OddLink(u64, u8),
    /// A jump to the address in this register, which is no return and no second half of a pair.
    #[error("IndirectJump {register} at {0:#x}", register = name(.1))]
    IndirectJump(u64, u8),
    /// A jump, branch or call to this target, which is no multiple of the unit.
    #[error("MisalignedTarget {1:#x} at {0:#x}")]
    MisalignedTarget(u64, u64),
    /// The second half of a pair, which is the start, a call's target, or where the flow goes on from another
    /// point than its first half.
    #[error("IntoPair at {0:#x}")]
    IntoPair(u64),
    /// Out of memory.
    #[error("out of memory")]
    Memory,
}

// The name of a register. A refusal of `recover` names none but those.
fn name(register: &u8) -> &'static str {
    if *register < 32 {
        register_name(*register)
    } else {
        "none"
    }
}
