//! Which names are meant, as plain data.

use crate::store::FrameStore;

/// The registers, the slots of the procedure with this entry, or those of its slots that a store touches.
#[derive(Clone, Copy, Debug, PartialEq, Eq)]
pub(crate) enum Chosen {
    Registers,
    SlotsOf(u64),
    SlotsTouched(u64, FrameStore),
}
