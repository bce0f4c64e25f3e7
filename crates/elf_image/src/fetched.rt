//! What is fetched.

ghost use Rattle.std.specs.Prelude.{◌≡◌};
ghost use Rattle.elf_image.specs.Fetches.{fetch_length};

/// An instruction's word and how many bytes it has, 2 or 4.
#[derive(Clone, Copy, Debug, PartialEq, Eq)]
pub struct Fetched {
    pub word: u32,
    pub length: u8,
}

/// The bytes of the instruction with this first byte, where addresses of instructions are multiples of
/// `unit`: RISC-V Unprivileged ISA, "Expanded Instruction-Length Encoding".
pub fn fetch_length(unit: u8, low: u8) -> u8
    ensures { result ≡ fetch_length unit low }
{
    if unit == 2 && low % 4 != 3 { 2 } else { 4 }
}
