//! What a call answers where it couldn't be done.

/// A read or a put failed, and was counted as a fault.
#[derive(Clone, Copy, Debug, PartialEq, Eq)]
pub struct Failed;

/// Why a file couldn't be read whole.
#[derive(Clone, Copy, Debug, PartialEq, Eq)]
pub enum ReadError {
    /// A read failed.
    Failed,
    /// The file has more bytes than this limit.
    TooLong(u64),
    /// Out of memory.
    Memory,
}

/// Why a text couldn't be written whole.
#[derive(Clone, Copy, Debug, PartialEq, Eq)]
pub enum WriteError {
    /// A put failed.
    Failed,
}
