//! Section headers: System V ABI, "Sections".

ghost use Rattle.std.specs.Prelude.{◌≡◌, ◌≤◌, ◌+◌, ◌*◌, length, find, IfOk, IsTrue};
ghost use Rattle.std.specs.Option.{option_copied};
ghost use Rattle.elf_image.specs.Symbols.{contents, e_shnum, e_shoff, is_symbol_table, lies_in, section_at, sections_of};

use crate::fields::{word_at, xword_at};
use crate::file_header::{e_shnum, e_shoff};
use std::alloc::{AllocError, Global};

/// The bytes of a section header.
pub const SECTION_SIZE: usize = 64;

const SHT_SYMTAB: u32 = 2;

/// A section header.
#[derive(Clone, Copy)]
pub struct SectionHeader {
    pub sh_type: u32,
    pub sh_offset: u64,
    pub sh_size: u64,
    pub sh_link: u32,
    pub sh_entsize: u64,
}

impl SectionHeader {
    /// The header that stands at an offset.
    #[tactic(auto, unfolding(crate::specs::Symbols::section_at))]
    pub fn read(bytes: &[u8], offset: usize) -> SectionHeader
        requires { offset + 64 ≤ length bytes.now }
        ensures { result ≡ section_at bytes.now offset }
    {
        SectionHeader {
            sh_type: word_at(bytes, offset + 4),
            sh_offset: xword_at(bytes, offset + 24),
            sh_size: xword_at(bytes, offset + 32),
            sh_link: word_at(bytes, offset + 40),
            sh_entsize: xword_at(bytes, offset + 56),
        }
    }

    /// It is a symbol table.
    pub fn is_symbol_table(&self) -> bool
        ensures { result ≡ is_symbol_table self.now }
    {
        self.sh_type == SHT_SYMTAB
    }

    /// Its bytes lie in a file of this size.
    pub fn lies_in(&self, size: usize) -> bool
        ensures { result ≡ lies_in size self.now }
    {
        u128::from(self.sh_offset) + u128::from(self.sh_size) <= size as u128
    }

    /// Its bytes.
    pub fn contents(self, bytes: &[u8]) -> &[u8]
        requires { IsTrue (lies_in (length bytes.now) self) }
        ensures { result.now ≡ contents bytes.now self }
    {
        let offset = self.sh_offset as usize;
        &bytes[offset..offset + self.sh_size as usize]
    }
}

/// The headers of the table, in order.
pub fn section_headers(alloc: Global, bytes: &[u8]) -> Result<Vec<SectionHeader>, AllocError>
    requires header { 64 ≤ length bytes.now }
    requires table { e_shoff bytes.now + 64 * e_shnum bytes.now ≤ length bytes.now }
    ensures { IfOk result (λ v. v.items ≡ sections_of bytes.now) }
{
    let table = e_shoff(bytes) as usize;
    let mut sections = Vec::new(alloc);
    for k in 0..usize::from(e_shnum(bytes)) {
        sections.push(SectionHeader::read(bytes, table + SECTION_SIZE * k))?;
    }
    Ok(sections)
}

/// The first symbol table.
pub fn first_table(sections: &[SectionHeader]) -> Option<&SectionHeader>
    ensures { option_copied result ≡ find is_symbol_table sections.now }
{
    sections.iter().find(|s| s.is_symbol_table())
}
