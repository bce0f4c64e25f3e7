//! Which files and lists are accepted.

ghost use Rattle.std.specs.Prelude.{◌≡◌, ◌↔◌, IsTrue, MatchResult};
ghost use Rattle.refusals.specs.declared.track.TrackRefusal as TrackRefusal;
ghost use Rattle.analyser_core.specs.Accepted.{IsImageOf, HasPoints, IsAcceptedAs, IsFileRefusal, IsCodeRefusal, IsRefusal};

use crate::Refusal;
use affine_lift::{TrackRefusal, read_tracked};
use elf_image::{ElfRefusal, Image, read_image};
use flow_points::{FlowRefusal, Points, recover};
use report_text::Tracked;
use std::alloc::Global;

/// The image of a file's bytes.
pub fn image_of(alloc: Global, bytes: &[u8]) -> Result<Image, Refusal>
    ensures { MatchResult result (IsImageOf bytes.now) (IsFileRefusal bytes.now) }
{
    match read_image(alloc, bytes) {
        Ok(image) => Ok(image),
        Err(ElfRefusal::Memory) => Err(Refusal::Memory),
        Err(refusal) => Err(Refusal::Elf(refusal)),
    }
}

/// The points of an image.
pub fn points_of(alloc: Global, image: &Image) -> Result<Points, Refusal>
    ensures { MatchResult result (HasPoints image.now) (IsCodeRefusal image.now) }
{
    match recover(alloc, image) {
        Ok(points) => Ok(points),
        Err(FlowRefusal::Memory) => Err(Refusal::Memory),
        Err(refusal) => Err(Refusal::Flow(refusal)),
    }
}

/// The points of a file's bytes and the names of a list, where both are accepted.
pub(crate) fn accepted(
    alloc: Global,
    bytes: &[u8],
    list: &str,
) -> Result<(Points, Tracked), Refusal>
    ensures { MatchResult result (λ a. IsAcceptedAs bytes.now list.now a.0 a.1.names) (IsRefusal bytes.now list.now) }
{
    let image = match image_of(alloc, bytes) {
        Ok(image) => image,
        Err(refusal) => return Err(refusal),
    };
    let points = match points_of(alloc, &image) {
        Ok(points) => points,
        Err(refusal) => return Err(refusal),
    };
    match read_tracked(alloc, list, &image, &points) {
        Ok(tracked) => Ok((points, tracked)),
        Err(refusal) if is_memory(refusal) => Err(Refusal::Memory),
        Err(refusal) => Err(Refusal::Track(refusal)),
    }
}

fn is_memory(refusal: TrackRefusal) -> bool
    ensures { IsTrue result ↔ (refusal ≡ TrackRefusal.Memory) }
{
    matches!(refusal, TrackRefusal::Memory)
}
