//! Segments.

ghost use Rattle.std.specs.Prelude.{◌≡◌, ◌≤◌, ◌+◌, ◌-◌, ◌^◌, length, IsTrue};
ghost use Rattle.std.specs.Option.{option_copied};
ghost use Rattle.elf_image.specs.Segments.{holds, shares_address, holds_code, byte_in, word_in, segment_with, code_segment};
ghost use Rattle.elf_image.specs.Ranges.{range_of};

use crate::range::Range;

/// A range of `size` addresses from `address` on. The first `stored` of its bytes are those of the file
/// from `offset` on, and the rest are 0.
#[derive(Clone, Copy, Debug, PartialEq, Eq)]
pub struct Segment {
    pub address: u64,
    pub size: u64,
    pub offset: u64,
    pub stored: u64,
    pub executable: bool,
}

impl Segment {
    /// The address is one of the segment.
    pub(crate) fn holds(&self, address: u64) -> bool
        ensures { result ≡ holds self.now address }
    {
        self.address <= address && address - self.address < self.size
    }

    /// Some address is one of both.
    pub(crate) fn shares_address(&self, other: &Segment) -> bool
        ensures { result ≡ shares_address self.now other.now }
    {
        self.holds(other.address) || other.holds(self.address)
    }

    /// The segment is executable and holds the four bytes from the address on.
    pub(crate) fn holds_code(&self, address: u64) -> bool
        ensures { result ≡ holds_code self.now address }
    {
        self.executable
            && self.address <= address
            && self.size >= 4
            && address - self.address <= self.size - 4
    }

    /// Its addresses.
    pub fn range(&self) -> Range
        ensures { result ≡ range_of self.now }
    {
        Range {
            address: self.address,
            size: self.size,
        }
    }

    /// The byte at an address of the segment.
    pub(crate) fn byte_at(&self, file: &[u8], address: u64) -> u8
        requires stored { self.now.offset + self.now.stored ≤ length file.now }
        requires held { self.now.address ≤ address }
        ensures { result ≡ byte_in file.now self.now address }
    {
        let at = address - self.address;
        if at < self.stored {
            file[(self.offset + at) as usize]
        } else {
            0
        }
    }

    /// The word at an address where the segment holds code.
    pub(crate) fn word_at(&self, file: &[u8], address: u64) -> u32
        requires stored { self.now.offset + self.now.stored ≤ length file.now }
        requires ends { self.now.address + self.now.size ≤ 2 ^ 64 }
        requires held { IsTrue (holds_code self.now address) }
        ensures { result ≡ word_in file.now self.now address }
    {
        u32::from_le_bytes([
            self.byte_at(file, address),
            self.byte_at(file, address + 1),
            self.byte_at(file, address + 2),
            self.byte_at(file, address + 3),
        ])
    }
}

/// The segment that has an address, where there is one.
pub(crate) fn segment_with(segments: &[Segment], address: u64) -> Option<&Segment>
    ensures { option_copied result ≡ segment_with segments.now address }
{
    segments.iter().find(|s| s.holds(address))
}

/// The segment that holds code at an address, where there is one.
pub(crate) fn code_segment(segments: &[Segment], address: u64) -> Option<&Segment>
    ensures { option_copied result ≡ code_segment segments.now address }
{
    segments.iter().find(|s| s.holds_code(address))
}
