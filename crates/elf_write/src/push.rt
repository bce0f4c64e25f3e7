//! What is appended to a file.

ghost use Rattle.std.specs.Prelude.{◌≡◌, ◌≤◌, ◌++◌, IsTrue, OnOk, nat_le};
ghost use Rattle.std.specs.List.{list_all};
ghost use Rattle.byteorder.specs.Endian.{little_bytes};
ghost use Rattle.elf_write.specs.Headers.{fields_text, file_header, program_header, section_size, words_text};

use crate::headers::{FileHeader, SegmentHeader};
use byteorder::{ByteOrder, LittleEndian};
use std::alloc::AllocError;

const IDENT: [u8; 16] = [0x7f, 0x45, 0x4c, 0x46, 2, 1, 1, 0, 0, 0, 0, 0, 0, 0, 0, 0];

/// Appends a file header, of 64 bytes.
pub fn push_file_header(file: &mut Vec<u8>, header: &FileHeader) -> Result<(), AllocError>
    ensures { OnOk result (file.new.items ≡ file.old.items ++ file_header header.now) }
{
    file.extend_from_slice(&IDENT)?;
    push_fields(
        file,
        &[
            (2, 2), // e_type
            (2, 243), // e_machine
            (4, 1), // e_version
            (8, header.entry), // e_entry
            (8, 64), // e_phoff
            (8, header.sections_at), // e_shoff
            (4, u64::from(header.flags)), // e_flags
            (2, 64), // e_ehsize
            (2, 56), // e_phentsize
            (2, u64::from(header.segments)), // e_phnum
            (2, section_size(header.sections)), // e_shentsize
            (2, u64::from(header.sections)), // e_shnum
            (2, u64::from(header.names_section)), // e_shstrndx
        ],
    )
}

// The bytes of a section header, 0 where there is none.
fn section_size(sections: u16) -> u64
    ensures { result ≡ section_size sections }
{
    if sections == 0 { 0 } else { 64 }
}

/// Appends the header of a segment, of 56 bytes.
pub fn push_program_header(file: &mut Vec<u8>, segment: &SegmentHeader) -> Result<(), AllocError>
    ensures { OnOk result (file.new.items ≡ file.old.items ++ program_header segment.now) }
{
    push_fields(
        file,
        &[
            (4, 1), // p_type
            (4, u64::from(segment.flags)), // p_flags
            (8, segment.offset), // p_offset
            (8, segment.address), // p_vaddr
            (8, segment.address), // p_paddr
            (8, segment.stored), // p_filesz
            (8, segment.size), // p_memsz
            (8, 0x1000), // p_align
        ],
    )
}

// Each field is a width in bytes and a value.
fn push_fields(file: &mut Vec<u8>, fields: &[(usize, u64)]) -> Result<(), AllocError>
    requires { IsTrue (list_all (λ field. nat_le field.0 8) fields.now) }
    ensures { OnOk result (file.new.items ≡ file.old.items ++ fields_text fields.now) }
{
    for field in fields {
        push_number(file, field.0, field.1)?;
    }
    Ok(())
}

/// Appends words, each in four bytes, the least byte first.
pub fn push_words(file: &mut Vec<u8>, words: &[u32]) -> Result<(), AllocError>
    ensures { OnOk result (file.new.items ≡ file.old.items ++ words_text words.now) }
{
    for word in words {
        push_number(file, 4, u64::from(*word))?;
    }
    Ok(())
}

#[tactic(auto, using(crate::proofs::LowBytes::first_bytes))]
/// Appends the lowest bytes of a number, so many, the lowest first.
pub fn push_number(file: &mut Vec<u8>, width: usize, n: u64) -> Result<(), AllocError>
    requires { width ≤ 8 }
    ensures { OnOk result (file.new.items ≡ file.old.items ++ little_bytes width n) }
{
    let mut bytes = [0; 8];
    LittleEndian::write_u64(&mut bytes, n);
    file.extend_from_slice(&bytes[..width])
}
