//! The lines of files that are no image.

ghost use Rattle.std.specs.Prelude.{◌≡◌, IfOk};
ghost use Rattle.number_text.specs.Numerals.{dec};
ghost use Rattle.refusals.specs.declared.elf.ElfRefusal.TheVariants.{NoCode};
ghost use Rattle.refusal_lines.specs.Lines.{at_offset, valued, elf_line};

use elf_image::ElfRefusal;
use number_text::{push_dec, push_hex};
use std::alloc::{AllocError, Global};

/// The line of what an image is refused for. Want of memory has none.
pub fn elf_line(alloc: Global, refusal: ElfRefusal) -> Result<Vec<u8>, AllocError>
    ensures { IfOk result (λ line. line.items ≡ elf_line refusal) }
{
    match refusal {
        ElfRefusal::Short { length, offset } => valued_line(alloc, b"Short", length, offset),
        ElfRefusal::NotElf { offset } => plain_line(alloc, b"NotElf", offset),
        ElfRefusal::NotClass64 { byte, offset } => valued_line(
            alloc,
            b"NotClass64",
            u64::from(byte),
            offset,
        ),
        ElfRefusal::NotLittle { byte, offset } => valued_line(
            alloc,
            b"NotLittle",
            u64::from(byte),
            offset,
        ),
        ElfRefusal::NotExec { e_type, offset } => valued_line(
            alloc,
            b"NotExec",
            u64::from(e_type),
            offset,
        ),
        ElfRefusal::NotRiscv { e_machine, offset } => valued_line(
            alloc,
            b"NotRiscv",
            u64::from(e_machine),
            offset,
        ),
        ElfRefusal::Rve { offset } => plain_line(alloc, b"Rve", offset),
        ElfRefusal::BadHeaderTable { offset } => plain_line(alloc, b"BadHeaderTable", offset),
        ElfRefusal::Dynamic { offset } => plain_line(alloc, b"Dynamic", offset),
        ElfRefusal::BadSegment { offset } => plain_line(alloc, b"BadSegment", offset),
        ElfRefusal::TooManySegments { limit, offset } => valued_line(
            alloc,
            b"TooManySegments",
            u64::from(limit),
            offset,
        ),
        ElfRefusal::Overlap { offset } => plain_line(alloc, b"Overlap", offset),
        ElfRefusal::NoCode { entry, offset } => no_code_line(alloc, entry, offset),
        ElfRefusal::Memory => Err(AllocError),
    }
}

fn plain_line(alloc: Global, name: &[u8], offset: u64) -> Result<Vec<u8>, AllocError>
    ensures { IfOk result (λ line. line.items ≡ at_offset name.now offset) }
{
    let mut line = Vec::from_slice(alloc, b"refused ")?;
    line.extend_from_slice(name)?;
    line.extend_from_slice(b" at offset ")?;
    push_dec(&mut line, offset)?;
    line.extend_from_slice(b"\n")?;
    Ok(line)
}

fn valued_line(alloc: Global, name: &[u8], value: u64, offset: u64) -> Result<Vec<u8>, AllocError>
    ensures { IfOk result (λ line. line.items ≡ at_offset (valued name.now (dec value)) offset) }
{
    let mut text = Vec::from_slice(alloc, name)?;
    text.extend_from_slice(b" ")?;
    push_dec(&mut text, value)?;
    plain_line(alloc, &text, offset)
}

fn no_code_line(alloc: Global, entry: u64, offset: u64) -> Result<Vec<u8>, AllocError>
    ensures { IfOk result (λ line. line.items ≡ elf_line (NoCode entry offset)) }
{
    let mut text = Vec::from_slice(alloc, b"NoCode ")?;
    push_hex(&mut text, entry)?;
    plain_line(alloc, &text, offset)
}
