//! Why there is no analysis.

ghost use Rattle.std.specs.Prelude.{◌≡◌};
ghost use Rattle.analyser_core.specs.declared.refusal.Refusal.TheVariants.{Memory};

use affine_lift::TrackRefusal;
use elf_image::ElfRefusal;
use flow_points::FlowRefusal;
use std::alloc::AllocError;
use thiserror::Error;

/// Why there is no analysis, in the order in which the causes are looked for. The first three are never
/// want of memory.
#[derive(Clone, Copy, Debug, PartialEq, Eq, Error)]
pub enum Refusal {
    /// The bytes are no image.
    #[error("{0}")]
    Elf(ElfRefusal),
    /// The image's code is refused for its flow.
    #[error("{0}")]
    Flow(FlowRefusal),
    /// The track list is refused.
    #[error("{0}")]
    Track(TrackRefusal),
    /// The program has more heads than this.
    #[error("TooManyHeads {0}")]
    Heads(u32),
    /// Want of memory.
    #[error("out of memory")]
    Memory,
}

impl From<AllocError> for Refusal {
    ghost from_gives = { λ _ e. e ≡ Memory };

    fn from(_error: AllocError) -> Refusal {
        Refusal::Memory
    }
}

impl From<lead_basis::Memory> for Refusal {
    ghost from_gives = { λ _ e. e ≡ Memory };

    fn from(_error: lead_basis::Memory) -> Refusal {
        Refusal::Memory
    }
}

impl From<frame_offsets::Memory> for Refusal {
    ghost from_gives = { λ _ e. e ≡ Memory };

    fn from(_error: frame_offsets::Memory) -> Refusal {
        Refusal::Memory
    }
}
