//! Numbers of 1, 2, 4 and 8 bytes, as they stand in a file: System V ABI, "Data Representation".

ghost use Rattle.std.specs.Prelude.{◌≡◌, ◌+◌, ◌≤◌, ◌<◌, All, length};
ghost use Rattle.elf_image.specs.Fields.{little_at};

use byteorder::{ByteOrder, LittleEndian};

/// The byte at an offset.
#[tactic(auto, unfolding(crate::specs::Fields::little_at))]
pub fn byte_at(bytes: &[u8], at: usize) -> u8
    requires { at + 1 ≤ length bytes.now }
    ensures { result ≡ little_at 1 bytes.now at }
{
    bytes[at]
}

/// The `Elf64_Half` at an offset.
#[tactic(auto, unfolding(crate::specs::Fields::little_at))]
pub fn half_at(bytes: &[u8], at: usize) -> u16
    requires { at + 2 ≤ length bytes.now }
    ensures { result ≡ little_at 2 bytes.now at }
{
    LittleEndian::read_u16(&bytes[at..])
}

/// The `Elf64_Word` at an offset.
#[tactic(auto, unfolding(crate::specs::Fields::little_at))]
pub fn word_at(bytes: &[u8], at: usize) -> u32
    requires { at + 4 ≤ length bytes.now }
    ensures { result ≡ little_at 4 bytes.now at }
{
    LittleEndian::read_u32(&bytes[at..])
}

/// The `Elf64_Xword`, `Elf64_Off` or `Elf64_Addr` at an offset.
#[tactic(auto, unfolding(crate::specs::Fields::little_at))]
pub fn xword_at(bytes: &[u8], at: usize) -> u64
    requires { at + 8 ≤ length bytes.now }
    ensures { result ≡ little_at 8 bytes.now at }
{
    LittleEndian::read_u64(&bytes[at..])
}

/// Each byte is below 256, for contracts that see the bytes as a list of numbers.
pub fn each_is_byte(bytes: &[u8])
    ensures { All (λ b. b < 256) bytes.now }
{}
