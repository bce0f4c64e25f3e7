//! Values of results, as plain data.

/// A factor times a register.
#[derive(Clone, Copy, Debug, PartialEq, Eq)]
pub struct Term {
    pub factor: u64,
    pub register: u8,
}

/// The value of a result: a sum of at most two multiples of registers and a constant, the word of the tracked name at
/// this position, or any word. A term that isn't there is 0 times register zero.
#[derive(Clone, Copy, Debug, PartialEq, Eq)]
pub enum Value {
    Linear {
        first: Term,
        second: Term,
        constant: u64,
    },
    Held(usize),
    Unknown,
}
