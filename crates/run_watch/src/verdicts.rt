//! What the check of a run answers.

use crate::context::Found;
use crate::stops::RunStop;
use sqlite_items::Items;

/// How many steps were made, why the run stopped, and what each watch found, in their order.
#[derive(Debug, Drop)]
pub struct RunVerdict {
    pub steps: u64,
    pub stop: RunStop,
    pub found: Items<Option<Found>>,
}

/// Why a run isn't checked.
#[derive(Clone, Copy, Debug, PartialEq, Eq)]
pub enum RunRefusal {
    /// The report names a procedure, or tells of a point, at this address that the file doesn't have.
    NotAPoint(u64),
    /// There was no memory.
    Memory,
}
