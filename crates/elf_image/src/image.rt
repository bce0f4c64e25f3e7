//! Images.

ghost use Rattle.std.specs.Prelude.{◌≡◌, None};
ghost use Rattle.elf_image.specs.Fields.{e_entry, unit_of};
ghost use Rattle.elf_image.specs.Segments.{segments_of};
ghost use Rattle.elf_image.specs.Symbols.{symbols_of};
ghost use Rattle.elf_image.specs.Refusals.{refusal_of};

use crate::fetched::Fetched;
use crate::fields::each_is_byte;
use crate::loaded::{byte_of, fetched_in};
use crate::segment::{Segment, code_segment};
use crate::symbol::Symbol;
use sqlite_items::Items;

/// An executable that is accepted: the bytes of its file, its entry, what addresses of its instructions
/// are multiples of, the kept segments in the order of their headers, and the symbols in the order of
/// their entries.
#[derive(Debug, Drop)]
pub struct Image {
    pub entry: u64,
    pub unit: u8,
    pub file: Items<u8>,
    pub segments: Items<Segment>,
    pub symbols: Items<Symbol>,
    pub ghost accepted: { refusal_of file ≡ None },
    pub ghost enters: { entry ≡ e_entry file },
    pub ghost has_unit: { unit ≡ unit_of file },
    pub ghost keeps: { segments ≡ segments_of file },
    pub ghost named: { symbols ≡ symbols_of file },
}

impl Image {
    ghost use Rattle.std.specs.Prelude.{◌≡◌, ◌⊎◌, ℕ, ◌%◌, ◌<◌, ◌≤◌, false, true, Some, length, All, AllPairs, Contains, IsSome, IfSome};
    ghost use Rattle.elf_image.specs.Segments.{IsLoadable, holds, segment_with};
    ghost use Rattle.elf_image.specs.Images.{loaded_byte, code_at, code_word, IsWordAt};
    ghost use Rattle.elf_image.specs.declared.segment.Segment.{Segment};

    /// What each image keeps, for callers that need it.
    #[tactic(auto, using(crate::proofs::Laws::few, crate::proofs::Laws::loadable, crate::proofs::Laws::apart, crate::proofs::Laws::one_segment, crate::proofs::Laws::words, crate::proofs::Laws::entry_is_multiple, crate::proofs::Laws::entry_has_code))]
    pub fn known(&self)
        ensures bytes { All (λ b. b < 256) self.now.file }
        ensures few { length self.now.segments ≤ 64 }
        ensures loadable { All (IsLoadable (length self.now.file)) self.now.segments }
        ensures apart { (a : ℕ) →
            AllPairs (λ s t. holds s a ≡ true → holds t a ≡ false) self.now.segments }
        ensures one_segment { (s : Segment) (a : ℕ) →
            Contains self.now.segments s → holds s a ≡ true → segment_with self.now.segments a ≡ Some s }
        ensures units { (self.now.unit ≡ 2) ⊎ (self.now.unit ≡ 4) }
        ensures words { (a : ℕ) → IfSome (code_word self.now a) (IsWordAt self.now a) }
        ensures entry_multiple { self.now.entry % self.now.unit ≡ 0 }
        ensures entry_code { IsSome (code_at self.now self.now.entry) }
    {
        each_is_byte(self.file.as_slice());
    }

    /// The byte that is loaded at an address: 0 past the stored ones, None where no segment has it.
    pub fn byte_at(&self, address: u64) -> Option<u8>
        ensures { result ≡ loaded_byte self.now address }
    {
        byte_of(self.file.as_slice(), self.segments.as_slice(), address)
    }

    /// The little-endian word of the four bytes from an address on, where they lie in one executable
    /// segment.
    pub fn code_word_at(&self, address: u64) -> Option<u32>
        ensures { result ≡ code_word self.now address }
    {
        let segment = code_segment(self.segments.as_slice(), address)?;
        Some(segment.word_at(self.file.as_slice(), address))
    }

    /// The instruction word at an address and its length, where the address is a multiple of the unit and
    /// the word's bytes lie in one executable segment.
    pub fn code_at(&self, address: u64) -> Option<Fetched>
        ensures { result ≡ code_at self.now address }
    {
        let (file, segments) = (self.file.as_slice(), self.segments.as_slice());
        fetched_in(file, segments, self.unit, address)
    }
}
