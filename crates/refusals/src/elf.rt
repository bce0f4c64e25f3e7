//! Why bytes are refused.

use thiserror::Error;

/// Why there is no image of some bytes: the first condition that holds, in this order. The offset is
/// the one in the file of what is refused; that of a header is the offset of its first byte.
#[derive(Clone, Copy, Debug, PartialEq, Eq, Error)]
pub enum ElfRefusal {
    /// There are fewer than the 64 bytes of a file header.
    #[error("Short {length} at offset {offset}")]
    Short { length: u64, offset: u64 },
    /// The first four bytes aren't the magic ones.
    #[error("NotElf at offset {offset}")]
    NotElf { offset: u64 },
    /// The class, byte 4, isn't that of 64-bit files.
    #[error("NotClass64 {byte} at offset {offset}")]
    NotClass64 { byte: u8, offset: u64 },
    /// The encoding of numbers, byte 5, isn't little-endian.
    #[error("NotLittle {byte} at offset {offset}")]
    NotLittle { byte: u8, offset: u64 },
    /// The file isn't an executable one.
    #[error("NotExec {e_type} at offset {offset}")]
    NotExec { e_type: u16, offset: u64 },
    /// The machine isn't RISC-V.
    #[error("NotRiscv {e_machine} at offset {offset}")]
    NotRiscv { e_machine: u16, offset: u64 },
    /// The flags say RVE, the base with 16 registers.
    #[error("Rve at offset {offset}")]
    Rve { offset: u64 },
    /// The size of a program header isn't 56, or the table of them doesn't lie in the file.
    #[error("BadHeaderTable at offset {offset}")]
    BadHeaderTable { offset: u64 },
    /// A header asks for dynamic linking.
    #[error("Dynamic at offset {offset}")]
    Dynamic { offset: u64 },
    /// A segment's stored bytes don't lie in the file, or are more than its size, or its addresses end
    /// above 2^64.
    #[error("BadSegment at offset {offset}")]
    BadSegment { offset: u64 },
    /// There are more segments than this limit.
    #[error("TooManySegments {limit} at offset {offset}")]
    TooManySegments { limit: u32, offset: u64 },
    /// A segment shares an address with an earlier one.
    #[error("Overlap at offset {offset}")]
    Overlap { offset: u64 },
    /// Nothing is fetched at the entry: it isn't a multiple of the unit, or the bytes of its instruction don't
    /// lie in one executable segment.
    #[error("NoCode {entry:#x} at offset {offset}")]
    NoCode { entry: u64, offset: u64 },
    /// Out of memory.
    #[error("out of memory")]
    Memory,
}
