//! Where a walk comes to.

use entry_values::State;

/// The address, the state there, and the point of the walk at which what is known of a register changed last.
#[derive(Drop)]
pub struct Stop {
    pub address: u64,
    pub state: State,
    pub changed: u64,
}
