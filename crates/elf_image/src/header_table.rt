//! The table of program headers, and what is asked of each of them alone.

ghost use Rattle.std.specs.Prelude.{◌≡◌, ◌≤◌, ◌+◌, ◌*◌, length, find, IfOk};
ghost use Rattle.std.specs.Option.{option_copied};
ghost use Rattle.elf_image.specs.Fields.{e_phoff, e_phnum};
ghost use Rattle.elf_image.specs.Headers.{headers_of, is_dynamic, is_bad};
ghost use Rattle.elf_image.specs.Refusals.{IsVerdict, header_refusal};

use crate::file_header::{e_phnum, e_phoff};
use crate::program_header::{HEADER_SIZE, ProgramHeader};
use refusals::ElfRefusal;
use std::alloc::{AllocError, Global};

/// The headers of the table, in order.
pub fn program_headers(alloc: Global, bytes: &[u8]) -> Result<Vec<ProgramHeader>, AllocError>
    requires header { 64 ≤ length bytes.now }
    requires table { e_phoff bytes.now + 56 * e_phnum bytes.now ≤ length bytes.now }
    ensures { IfOk result (λ v. v.items ≡ headers_of bytes.now) }
{
    let table = e_phoff(bytes) as usize;
    let mut headers = Vec::new(alloc);
    for k in 0..usize::from(e_phnum(bytes)) {
        headers.push(ProgramHeader::read(bytes, table + HEADER_SIZE * k))?;
    }
    Ok(headers)
}

/// Refuses a header that asks for dynamic linking, or that can't be loaded from a file of this size.
#[tactic(auto, unfolding(crate::specs::Refusals::header_refusal))]
pub fn check_headers(headers: &[ProgramHeader], size: usize) -> Result<(), ElfRefusal>
    ensures { IsVerdict result (header_refusal size headers.now) }
{
    if let Some(header) = first_dynamic(headers) {
        return Err(ElfRefusal::Dynamic {
            offset: header.offset,
        });
    }
    if let Some(header) = first_bad(headers, size) {
        return Err(ElfRefusal::BadSegment {
            offset: header.offset,
        });
    }
    Ok(())
}

/// The first header that asks for dynamic linking.
fn first_dynamic(headers: &[ProgramHeader]) -> Option<&ProgramHeader>
    ensures { option_copied result ≡ find is_dynamic headers.now }
{
    headers.iter().find(|h| h.is_dynamic())
}

/// The first header that can't be loaded from a file of this size.
fn first_bad(headers: &[ProgramHeader], size: usize) -> Option<&ProgramHeader>
    ensures { option_copied result ≡ find (is_bad size) headers.now }
{
    headers.iter().find(|h| h.is_bad(size))
}
