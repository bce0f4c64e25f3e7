//! What headers tell.

/// The file header, behind which the program headers stand.
#[derive(Clone, Copy)]
pub struct FileHeader {
    /// The address where the code is entered.
    pub entry: u64,
    /// What the code needs of the machine, `e_flags`: 1 where it may be compressed.
    pub flags: u32,
    /// The number of program headers.
    pub segments: u16,
    /// The place of the section headers in the file.
    pub sections_at: u64,
    /// The number of section headers.
    pub sections: u16,
    /// The section that has the sections' names.
    pub names_section: u16,
}

/// The header of a segment that is loaded.
#[derive(Clone, Copy)]
pub struct SegmentHeader {
    /// The place of its bytes in the file.
    pub offset: u64,
    /// The address of its first byte.
    pub address: u64,
    /// The number of its bytes in the file.
    pub stored: u64,
    /// The number of its bytes in memory, of which those that aren't stored are 0.
    pub size: u64,
    /// What may be done with it: 1 for code, 2 for writing, 4 for reading, and sums of these.
    pub flags: u32,
}
