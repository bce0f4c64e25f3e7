//! Open calls.

/// An open call of a procedure: the procedure's address, sp at its entry, the return address, which the first one lacks,
/// the words of s0 to s11 at the entry, and those of these on which the caller relies, bit i for s of i.
#[derive(Clone, Copy, Debug, PartialEq, Eq)]
pub struct Activation {
    pub procedure: u64,
    pub entry_sp: u64,
    pub return_to: Option<u64>,
    pub saved: [u64; 12],
    pub relied: u16,
}
