//! Why a run stops.

/// Why a run stops: at an `exit`, an EBREAK or another ECALL; because as many steps were made as given; because it left the
/// points of the file, or its code was altered, or a return didn't go to its caller; or at a call with as many activations
/// as there may be.
#[derive(Clone, Copy, Debug, PartialEq, Eq)]
pub enum RunStop {
    /// ECALL with 93 in a7; the value is a0.
    Exit(u64),
    /// EBREAK at this address.
    Break(u64),
    /// Any other ECALL; the value is a7.
    Ecall(u64),
    /// As many steps were made as given.
    Budget,
    /// The run goes to this address.
    Left(u64),
    /// So many activations are open.
    Depth(u32),
}
