//! What is assumed of runs.

/// What a run has to keep at a point, and no table tells: that a store at an unknown place, or at a known address, or
/// an environment call, or an opaque instruction spares the slots of open procedures; that code which isn't in sight
/// comes back from a call or a tail call and keeps the convention; that a jump goes to the targets taken for it; that
/// a call doesn't return; that the stack of a call is free, where sp isn't known or lies above its word at the entry;
/// that behind a point which isn't followed the convention is kept; and that nothing is asked where ra leaves.
#[derive(Clone, Copy, Debug, PartialEq, Eq)]
pub enum Premise {
    Stores,
    Globals,
    Ecalls,
    Opaques,
    Foreigns,
    Tails,
    Tables,
    NoReturn,
    Stack,
    Above,
    Partial,
    Exits,
}

/// A premise, with the procedure and the address of the point that makes it.
#[derive(Clone, Copy, Debug, PartialEq, Eq)]
pub struct Assumption {
    pub premise: Premise,
    pub procedure: u64,
    pub address: u64,
}
