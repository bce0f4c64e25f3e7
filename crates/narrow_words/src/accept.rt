//! Which files and lists are accepted.

ghost use Rattle.std.specs.Prelude.{◌≡◌, ◌↔◌, IsTrue, MatchResult};
ghost use Rattle.refusals.specs.declared.track.TrackRefusal as TrackRefusal;
ghost use Rattle.narrow_words.specs.Accepted.{IsNarrowAccepted, IsNarrowRefusal};

use affine_lift::{TrackRefusal, read_narrow_tracked};
use analyser_core::{Refusal, image_of, points_of};
use flow_points::Points;
use report_text::NarrowTracked;
use std::alloc::Global;

/// The points of a file's bytes and the names of a list, where both are accepted.
pub(crate) fn accepted(
    alloc: Global,
    bytes: &[u8],
    list: &str,
) -> Result<(Points, NarrowTracked), Refusal>
    ensures { MatchResult result (λ a. IsNarrowAccepted bytes.now list.now a.0 a.1.names) (IsNarrowRefusal bytes.now list.now) }
{
    let image = match image_of(alloc, bytes) {
        Ok(image) => image,
        Err(refusal) => return Err(refusal),
    };
    let points = match points_of(alloc, &image) {
        Ok(points) => points,
        Err(refusal) => return Err(refusal),
    };
    match read_narrow_tracked(alloc, list, &image, &points) {
        Ok(tracked) => Ok((points, tracked)),
        Err(refusal) if is_memory(refusal) => Err(Refusal::Memory),
        Err(refusal) => Err(Refusal::Track(refusal)),
    }
}

fn is_memory(refusal: TrackRefusal) -> bool
    ensures { IsTrue result ↔ (refusal ≡ TrackRefusal.Memory) }
{
    matches!(refusal, TrackRefusal::Memory)
}
