//! The program of a file and a list that are accepted.

ghost use Rattle.std.specs.Prelude.{◌≡◌, ◌↔◌, IsTrue, MatchResult};
ghost use Rattle.refusals.specs.declared.track.TrackRefusal as TrackRefusal;
ghost use Rattle.affine_prog.specs.Programs.{IsWellFormed};
ghost use Rattle.analyser_core.specs.Accepted.{IsAcceptedAs, IsRefusal};
ghost use Rattle.refute_answers.specs.Asked.{HasProgram};
ghost use Rattle.refute_answers.specs.Lifted.{IsLiftRefusal};

use affine_lift::{TrackRefusal, lift, read_tracked};
use affine_prog::Program;
use analyser_core::{MOST_HEADS, Refusal, image_of, points_of};
use block_program::contract;
use flow_points::Points;
use frame_offsets::offsets;
use report_text::Tracked;
use std::alloc::Global;

/// The points of a file's bytes and the names of a list, where both are accepted.
pub(crate) fn accepted(
    alloc: Global,
    bytes: &[u8],
    list: &str,
) -> Result<(Points, Tracked), Refusal>
    ensures { MatchResult result (λ a. IsAcceptedAs bytes.now list.now a.0 a.1.names) (IsRefusal bytes.now list.now) }
{
    let image = match image_of(alloc, bytes) {
        Ok(image) => image,
        Err(refusal) => return Err(refusal),
    };
    let points = match points_of(alloc, &image) {
        Ok(points) => points,
        Err(refusal) => return Err(refusal),
    };
    match read_tracked(alloc, list, &image, &points) {
        Ok(tracked) => Ok((points, tracked)),
        Err(refusal) if is_memory(refusal) => Err(Refusal::Memory),
        Err(refusal) => Err(Refusal::Track(refusal)),
    }
}

fn is_memory(refusal: TrackRefusal) -> bool
    ensures { IsTrue result ↔ (refusal ≡ TrackRefusal.Memory) }
{
    matches!(refusal, TrackRefusal::Memory)
}

/// The program of the points with these names, where it has no more heads than it may.
pub(crate) fn program_of(
    alloc: Global,
    points: &Points,
    tracked: &Tracked,
) -> Result<Program, Refusal>
    ensures { MatchResult result (HasProgram points.now tracked.now.names) (IsLiftRefusal points.now tracked.now.names) }
{
    let offsets = offsets(alloc, points)?;
    let program = lift(alloc, points, &offsets, tracked)?;
    let blocks = contract(alloc, &program)?;
    if blocks.simple_heads() > MOST_HEADS {
        return Err(Refusal::Heads(MOST_HEADS));
    }
    Ok(program)
}
