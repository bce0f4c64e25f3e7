//! Reading an image.

ghost use Rattle.std.specs.Prelude.{◌≡◌, ◌≢◌, ◌≤◌, length, None, Some, IfOk, IfErr, OnOk};
ghost use Rattle.elf_image.specs.Fields.{e_entry, unit_of};
ghost use Rattle.elf_image.specs.Segments.{segments_of};
ghost use Rattle.elf_image.specs.Symbols.{symbols_of};
ghost use Rattle.elf_image.specs.Refusals.{refusal_of};

use crate::file_header::{check_identity, check_machine, check_table, e_entry, unit_of};
use crate::header_table::{check_headers, program_headers};
use crate::image::Image;
use crate::kept::{check_entry, check_kept, kept_headers, segments};
use crate::segment::Segment;
use crate::symbols::symbols;
use refusals::ElfRefusal;
use sqlite_items::Items;
use std::alloc::Global;

/// Reads the image of an ELF file from its bytes, which it copies. It answers `Memory` for want of
/// memory alone, and else the first condition that refuses the bytes.
pub fn read_image(alloc: Global, bytes: &[u8]) -> Result<Image, ElfRefusal>
    ensures accepted { OnOk result (refusal_of bytes.now ≡ None) }
    ensures refused { IfErr result (λ e. e ≢ ElfRefusal.Memory → refusal_of bytes.now ≡ Some e) }
    ensures file { IfOk result (λ image. image.file ≡ bytes.now) }
    ensures entry { IfOk result (λ image. image.entry ≡ e_entry bytes.now) }
    ensures unit { IfOk result (λ image. image.unit ≡ unit_of bytes.now) }
    ensures segments { IfOk result (λ image. image.segments ≡ segments_of bytes.now) }
    ensures symbols { IfOk result (λ image. image.symbols ≡ symbols_of bytes.now) }
{
    let segments = accepted_segments(alloc, bytes)?;
    let symbols = symbols(alloc, bytes).map_err(|_| ElfRefusal::Memory)?;
    let file = Items::from_slice(alloc, bytes).map_err(|_| ElfRefusal::Memory)?;
    Ok(Image {
        entry: e_entry(bytes),
        unit: unit_of(bytes),
        file,
        segments: Items::from_vec(segments),
        symbols: Items::from_vec(symbols),
    })
}

/// The segments of a file that is accepted.
#[tactic(auto, unfolding(crate::specs::Refusals::refusal_of))]
fn accepted_segments(alloc: Global, bytes: &[u8]) -> Result<Vec<Segment>, ElfRefusal>
    ensures accepted { OnOk result (refusal_of bytes.now ≡ None) }
    ensures refused { IfErr result (λ e. e ≢ ElfRefusal.Memory → refusal_of bytes.now ≡ Some e) }
    ensures header { OnOk result (64 ≤ length bytes.now) }
    ensures segments { IfOk result (λ v. v.items ≡ segments_of bytes.now) }
{
    check_identity(bytes)?;
    check_machine(bytes)?;
    check_table(bytes)?;
    let headers = program_headers(alloc, bytes).map_err(|_| ElfRefusal::Memory)?;
    check_headers(&headers, bytes.len())?;
    let kept = kept_headers(alloc, &headers).map_err(|_| ElfRefusal::Memory)?;
    check_kept(&kept)?;
    let segments = segments(alloc, &kept).map_err(|_| ElfRefusal::Memory)?;
    check_entry(bytes, &segments)?;
    Ok(segments)
}
