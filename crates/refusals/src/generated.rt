//! Why there is no file.

use thiserror::Error;

/// Why there is no generated file.
#[derive(Clone, Copy, Debug, PartialEq, Eq, Error)]
pub enum GenRefusal {
    /// This number of procedures, which isn't from 1 to 100.
    #[error("Range {0}")]
    Range(u32),
    /// Out of memory.
    #[error("out of memory")]
    Memory,
}
