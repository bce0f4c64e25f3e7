//! The code of a file that is accepted, and the answer to one that isn't.

ghost use Rattle.std.specs.Prelude.{◌≤◌, length, IfOk, MatchResult};
ghost use Rattle.analyser_core.specs.Accepted.{most_bytes};
ghost use Rattle.order_answers.specs.FileRefusals.{IsRefused, IsCode, IsListRefusal};

use crate::causes::refusal_line;
use analyser_core::{Refusal, image_of, points_of};
use elf_image::Image;
use flow_points::Points;
use std::alloc::{AllocError, Global};

/// The image and the points in the bytes of a file.
pub fn code_of(alloc: Global, bytes: &[u8]) -> Result<(Image, Points), Refusal>
    requires { length bytes.now ≤ most_bytes }
    ensures { MatchResult result (λ code. IsCode bytes.now code.0 code.1) (IsListRefusal bytes.now) }
{
    let image = match image_of(alloc, bytes) {
        Ok(image) => image,
        Err(refusal) => return Err(refusal),
    };
    match points_of(alloc, &image) {
        Ok(points) => Ok((image, points)),
        Err(refusal) => Err(refusal),
    }
}

/// The answer to bytes without code.
pub fn refused(alloc: Global, bytes: &[u8], refusal: Refusal) -> Result<(u8, Vec<u8>), AllocError>
    requires short { length bytes.now ≤ most_bytes }
    requires cause { IsListRefusal bytes.now refusal }
    ensures { IfOk result (λ answer. IsRefused bytes.now answer.0 answer.1.items) }
{
    Ok((1, refusal_line(alloc, bytes, refusal)?))
}
