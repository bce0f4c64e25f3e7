//! Limits of a table, and why there is none.

use entry_values::Memory;

/// How many rows a table has at most, and how many of them a procedure; how many procedures; how many slots
/// a row; and how many rows are gone through, each time that what is known there changes.
#[derive(Clone, Copy, Debug)]
pub struct Limits {
    pub rows: usize,
    pub own_rows: usize,
    pub procedures: usize,
    pub slots: usize,
    pub steps: u64,
}

pub const LIMITS: Limits = Limits {
    rows: 262_144,
    own_rows: 65_536,
    procedures: 16_384,
    slots: 64,
    steps: 67_108_864,
};

/// Why there is no table: out of memory, more rows or procedures than the limits, or rows that aren't settled
/// after the last step.
#[derive(Clone, Copy, Debug, PartialEq, Eq)]
pub enum NoTable {
    Memory,
    Rows,
    Procedures,
    Unsettled,
}

/// The value, or that memory ran out.
pub(crate) fn kept<T>(made: Result<T, Memory>) -> Result<T, NoTable> {
    match made {
        Ok(made) => Ok(made),
        Err(_) => Err(NoTable::Memory),
    }
}
