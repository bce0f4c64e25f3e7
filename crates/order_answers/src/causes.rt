//! The line of what stands in the way of an analysis.

ghost use Rattle.std.specs.Prelude.{IfOk};
ghost use Rattle.order_answers.specs.FileRefusals.{IsLineOf};

use analyser_core::Refusal;
use elf_image::unit_of;
use refusal_lines::{elf_line, flow_line, track_line, value_line};
use std::alloc::{AllocError, Global};

/// The line of what these bytes are refused for. Want of memory has none.
pub fn refusal_line(alloc: Global, bytes: &[u8], refusal: Refusal) -> Result<Vec<u8>, AllocError>
    ensures { IfOk result (λ line. IsLineOf bytes.now refusal line.items) }
{
    match refusal {
        Refusal::Elf(refusal) => elf_line(alloc, refusal),
        Refusal::Flow(refusal) => flow_line(alloc, unit_of(bytes), refusal),
        Refusal::Track(refusal) => track_line(alloc, refusal),
        Refusal::Heads(limit) => value_line(alloc, b"TooManyHeads", u64::from(limit)),
        Refusal::Memory => Err(AllocError),
    }
}
