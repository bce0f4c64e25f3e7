//! Why a track list is refused.

ghost use Rattle.std.specs.Prelude.{◌≡◌};
ghost use Rattle.refusals.specs.declared.track.TrackRefusal.TheVariants.{Memory};

use std::alloc::AllocError;
use thiserror::Error;

/// Why a text is no list of tracked names. A place is counted from 1, and is that of the first item that breaks a rule.
#[derive(Clone, Copy, Debug, PartialEq, Eq, Error)]
pub enum TrackRefusal {
    /// The text is empty.
    #[error("Empty")]
    Empty,
    /// There are more items than this.
    #[error("TooMany {0}")]
    TooMany(u32),
    /// The item has no colon and is no register but zero, or no address stands before its first colon.
    #[error("UnknownName {0}")]
    UnknownName(u64),
    /// What follows the item's first colon is no slot's distance.
    #[error("BadSlot {0}")]
    BadSlot(u64),
    /// No procedure has the item's address.
    #[error("NoSuchProcedure {0}")]
    NoSuchProcedure(u64),
    /// An earlier item is the same name.
    #[error("Repeated {0}")]
    Repeated(u64),
    /// Want of memory.
    #[error("out of memory")]
    Memory,
}

impl From<AllocError> for TrackRefusal {
    ghost from_gives = { λ _ e. e ≡ Memory };

    fn from(_error: AllocError) -> TrackRefusal {
        TrackRefusal::Memory
    }
}
