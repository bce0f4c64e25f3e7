//! The lines of a track list's refusals.

ghost use Rattle.std.specs.Prelude.{◌≡◌, IfOk};
ghost use Rattle.refusal_lines.specs.Lines.{track_line};

use crate::value_lines::value_line;
use affine_lift::TrackRefusal;
use std::alloc::{AllocError, Global};

/// The line of what a track list is refused for. Want of memory has none.
pub fn track_line(alloc: Global, refusal: TrackRefusal) -> Result<Vec<u8>, AllocError>
    ensures { IfOk result (λ line. line.items ≡ track_line refusal) }
{
    match refusal {
        TrackRefusal::Empty => Vec::from_slice(alloc, b"refused Empty\n"),
        TrackRefusal::TooMany(limit) => value_line(alloc, b"TooMany", u64::from(limit)),
        TrackRefusal::UnknownName(place) => value_line(alloc, b"UnknownName", place),
        TrackRefusal::BadSlot(place) => value_line(alloc, b"BadSlot", place),
        TrackRefusal::NoSuchProcedure(place) => value_line(alloc, b"NoSuchProcedure", place),
        TrackRefusal::Repeated(place) => value_line(alloc, b"Repeated", place),
        TrackRefusal::Memory => Err(AllocError),
    }
}
