//! Small files.

ghost use Rattle.std.specs.Prelude.{◌≡◌, ◌++◌, IfOk, OnOk};
ghost use Rattle.elf_write.specs.Headers.{small_file, small_headers, words_text};

use crate::headers::{FileHeader, SegmentHeader};
use crate::push::{push_file_header, push_program_header, push_words};
use std::alloc::{AllocError, Global};

/// The small file with these flags and this code.
pub fn file_of_code(alloc: Global, flags: u32, code: &[u8]) -> Result<Vec<u8>, AllocError>
    ensures { IfOk result (λ file. file.items ≡ small_file flags code.now) }
{
    let mut file = Vec::new(alloc);
    push_small_headers(&mut file, flags, 120 + code.len() as u64)?;
    file.extend_from_slice(code)?;
    Ok(file)
}

#[tactic(auto, using(crate::proofs::Laws::words_length))]
/// The small file with no flags and these code words.
pub fn file_of_words(alloc: Global, words: &[u32]) -> Result<Vec<u8>, AllocError>
    ensures { IfOk result (λ file. file.items ≡ small_file 0 (words_text words.now)) }
{
    let mut file = Vec::new(alloc);
    push_small_headers(&mut file, 0, 120 + 4 * words.len() as u64)?;
    push_words(&mut file, words)?;
    Ok(file)
}

/// Appends the headers of the small file of this many bytes.
pub fn push_small_headers(file: &mut Vec<u8>, flags: u32, size: u64) -> Result<(), AllocError>
    ensures { OnOk result (file.new.items ≡ file.old.items ++ small_headers flags size) }
{
    let header = FileHeader {
        entry: 0x10078,
        flags,
        segments: 1,
        sections_at: 0,
        sections: 0,
        names_section: 0,
    };
    let segment = SegmentHeader {
        offset: 0,
        address: 0x10000,
        stored: size,
        size,
        flags: 5,
    };
    push_file_header(file, &header)?;
    push_program_header(file, &segment)
}
