//! A program header: System V ABI, "Program Header".

ghost use Rattle.std.specs.Prelude.{◌≡◌, ◌≤◌, ◌+◌, length};
ghost use Rattle.elf_image.specs.Headers.{header_at, is_load, is_dynamic, is_bad, is_kept};
ghost use Rattle.elf_image.specs.Segments.{segment_of};

use crate::fields::{word_at, xword_at};
use crate::segment::Segment;

/// The bytes of a program header.
pub const HEADER_SIZE: usize = 56;

const PT_LOAD: u32 = 1;

const PT_DYNAMIC: u32 = 2;

const PT_INTERP: u32 = 3;

/// Executable.
const PF_X: u32 = 0x1;

/// A program header, with the offset of its first byte in the file.
#[derive(Clone, Copy)]
pub struct ProgramHeader {
    pub offset: u64,
    pub p_type: u32,
    pub p_flags: u32,
    pub p_offset: u64,
    pub p_vaddr: u64,
    pub p_filesz: u64,
    pub p_memsz: u64,
}

impl ProgramHeader {
    /// The header that stands at an offset.
    #[tactic(auto, unfolding(crate::specs::Headers::header_at))]
    pub fn read(bytes: &[u8], offset: usize) -> ProgramHeader
        requires { offset + 56 ≤ length bytes.now }
        ensures { result ≡ header_at bytes.now offset }
    {
        ProgramHeader {
            offset: offset as u64,
            p_type: word_at(bytes, offset),
            p_flags: word_at(bytes, offset + 4),
            p_offset: xword_at(bytes, offset + 8),
            p_vaddr: xword_at(bytes, offset + 16),
            p_filesz: xword_at(bytes, offset + 32),
            p_memsz: xword_at(bytes, offset + 40),
        }
    }

    fn is_load(&self) -> bool
        ensures { result ≡ is_load self.now }
    {
        self.p_type == PT_LOAD
    }

    /// It asks for dynamic linking.
    pub fn is_dynamic(&self) -> bool
        ensures { result ≡ is_dynamic self.now }
    {
        matches!(self.p_type, PT_DYNAMIC | PT_INTERP)
    }

    /// It can't be loaded from a file of this many bytes.
    pub fn is_bad(&self, size: usize) -> bool
        ensures { result ≡ is_bad size self.now }
    {
        let file_end = u128::from(self.p_offset) + u128::from(self.p_filesz);
        let memory_end = u128::from(self.p_vaddr) + u128::from(self.p_memsz);
        self.is_load()
            && (file_end > size as u128 || self.p_memsz < self.p_filesz || memory_end > 1 << 64)
    }

    /// It has memory to load.
    pub fn is_kept(&self) -> bool
        ensures { result ≡ is_kept self.now }
    {
        self.is_load() && self.p_memsz > 0
    }

    /// The segment that it describes.
    pub fn segment(&self) -> Segment
        ensures { result ≡ segment_of self.now }
    {
        Segment {
            address: self.p_vaddr,
            size: self.p_memsz,
            offset: self.p_offset,
            stored: self.p_filesz,
            executable: self.p_flags & PF_X != 0,
        }
    }
}
