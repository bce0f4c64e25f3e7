//! The kept headers and their segments, and what is asked of them together.

ghost use Rattle.std.specs.Prelude.{◌≡◌, ◌≤◌, filter, find, length, map, All, IfOk};
ghost use Rattle.std.specs.Option.{option_copied};
ghost use Rattle.elf_image.specs.Headers.{is_kept};
ghost use Rattle.elf_image.specs.Segments.{IsLoadable, segment_of};
ghost use Rattle.elf_image.specs.Refusals.{IsVerdict, kept_refusal, entry_refusal, shares_earlier};

use crate::file_header::{e_entry, unit_of};
use crate::loaded::fetched_in;
use crate::program_header::ProgramHeader;
use crate::segment::Segment;
use refusals::ElfRefusal;
use std::alloc::{AllocError, Global};

/// At most so many segments are kept.
const MOST_SEGMENTS: usize = 64;

/// The kept headers, in order.
pub fn kept_headers(
    alloc: Global,
    headers: &[ProgramHeader],
) -> Result<Vec<ProgramHeader>, AllocError>
    ensures { IfOk result (λ v. v.items ≡ filter is_kept headers.now) }
{
    headers
        .iter()
        .filter(|h| h.is_kept())
        .copied()
        .collect(alloc)
}

/// Refuses too many kept headers, and two that share an address.
#[tactic(auto, unfolding(crate::specs::Refusals::kept_refusal))]
pub fn check_kept(kept: &[ProgramHeader]) -> Result<(), ElfRefusal>
    ensures { IsVerdict result (kept_refusal kept.now) }
{
    if let Some(header) = kept.get(MOST_SEGMENTS) {
        return Err(ElfRefusal::TooManySegments {
            limit: MOST_SEGMENTS as u32,
            offset: header.offset,
        });
    }
    if let Some(header) = first_overlap(kept) {
        return Err(ElfRefusal::Overlap {
            offset: header.offset,
        });
    }
    Ok(())
}

/// The first header that shares an address with one that stands earlier in the file.
fn first_overlap(kept: &[ProgramHeader]) -> Option<&ProgramHeader>
    ensures { option_copied result ≡ find (shares_earlier kept.now) kept.now }
{
    kept.iter().find(|h| shares_earlier(kept, h))
}

/// The header shares an address with one that stands earlier in the file.
fn shares_earlier(kept: &[ProgramHeader], header: &ProgramHeader) -> bool
    ensures { result ≡ shares_earlier kept.now header.now }
{
    let segment = header.segment();
    kept.iter().any(|e| e.offset < header.offset && e.segment().shares_address(&segment))
}

/// The segments of the kept headers.
pub fn segments(alloc: Global, kept: &[ProgramHeader]) -> Result<Vec<Segment>, AllocError>
    ensures { IfOk result (λ v. v.items ≡ map segment_of kept.now) }
{
    kept.iter().map(|h| h.segment()).collect(alloc)
}

/// Refuses an entry where nothing is fetched.
#[tactic(auto, unfolding(crate::specs::Refusals::entry_refusal))]
pub fn check_entry(bytes: &[u8], segments: &[Segment]) -> Result<(), ElfRefusal>
    requires header { 64 ≤ length bytes.now }
    requires loadable { All (IsLoadable (length bytes.now)) segments.now }
    ensures { IsVerdict result (entry_refusal bytes.now segments.now) }
{
    let entry = e_entry(bytes);
    match fetched_in(bytes, segments, unit_of(bytes), entry) {
        Some(_) => Ok(()),
        None => Err(ElfRefusal::NoCode { entry, offset: 24 }),
    }
}
