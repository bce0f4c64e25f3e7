//! Instructions of both lengths.

ghost use Rattle.std.specs.Prelude.{◌≡◌, ◌↔◌, IfSome};
ghost use Rattle.rv_decode.specs.Instructions.{IsWellFormed};
ghost use Rattle.rvc_expand.specs.Lengths.{MeansWithLength, length_of};

use crate::expander::expand;
use rv_decode::{Instr, decode};

/// The length in bytes of an instruction with this first byte, in code that may have compressed
/// instructions: RISC-V Unprivileged ISA, "Expanded Instruction-Length Encoding".
pub fn length_of(low: u8) -> u8
    ensures { result ≡ length_of low }
{
    if low % 4 == 3 { 4 } else { 2 }
}

/// The instruction that a word of this length stands for; `None` exactly where it stands for none.
pub fn decode_with_length(word: u32, length: u8) -> Option<Instr>
    ensures found { IfSome result (MeansWithLength word length) }
    ensures only { (instr : Instr) → MeansWithLength word length instr → result ≡ Some instr }
    ensures in_range { IfSome result IsWellFormed }
{
    match length {
        4 => decode(word),
        2 if word < 1 << 16 => expand(word as u16),
        _ => None,
    }
}
