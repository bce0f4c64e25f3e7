//! Ends of procedures.

use entry_values::Value;

/// How a procedure ends: by a return home, by a tail call of code that isn't known, by ra with another word;
/// or where it is followed no further: at a jump, at a word that means nothing, at a limit, or into a call of
/// a procedure that doesn't return.
#[derive(Clone, Copy, Debug, PartialEq, Eq)]
pub enum Way {
    Home,
    Out,
    Away,
    Jump,
    NoWord,
    Limit,
    Into(u64),
}

/// An end of a procedure, with the values of the registers there.
#[derive(Clone, Copy, Debug)]
pub struct End {
    pub procedure: u64,
    pub address: u64,
    pub way: Way,
    pub values: [Value; 32],
}
