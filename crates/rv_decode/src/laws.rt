//! What follows from the table and from the registers' names.

ghost use Rattle.std.specs.Prelude.{◌≡◌, ℕ, ◌<◌, ◌^◌, ◌↔◌, List, IsSome, IfSome};
ghost use Rattle.std.specs.List.{AllPass};
ghost use Rattle.rv_decode.specs.Instructions.{IsWellFormed, Means};
ghost use Rattle.rv_decode.specs.Registers.{is_name_byte, name_of_register, register_of};

use crate::decoder::decode;
use crate::encoder::encode;
use rv_instr::Instr;

/// A word has at most one instruction, an instruction has at most one word, and the fields of an
/// instruction that has a word are in range.
pub fn table_is_one_to_one()
    ensures one_instruction { (word : ℕ) (i j : Instr) → Means word i → Means word j → i ≡ j }
    ensures one_word { (v w : ℕ) (instr : Instr) → Means v instr → Means w instr → v ≡ w }
    ensures in_range { (word : ℕ) (instr : Instr) → Means word instr
        → IsWellFormed instr × (word < 2 ^ 32) }
{}

/// What an instruction's word is decoded to: the instruction.
pub fn decode_encoded(instr: &Instr) -> Option<Instr>
    requires { IsWellFormed instr.now }
    ensures { result ≡ Some instr.now }
{
    decode(encode(instr))
}

/// What the instruction of a word is encoded to, where the word has one: the word.
pub fn encode_decoded(word: u32) -> Option<u32>
    ensures same { IfSome result (λ again. again ≡ word) }
    ensures some { IsSome result ↔ ((instr : Instr) × Means word instr) }
{
    let instr = decode(word)?;
    Some(encode(&instr))
}

/// A register's name is read as that register, a text that is read names one of 32 registers, and
/// names are of lower-case letters and digits.
pub fn names_are_read()
    ensures same { (r : ℕ) → r < 32 → register_of (name_of_register r) ≡ Some r }
    ensures in_range { (text : List ℕ) (r : ℕ) → register_of text ≡ Some r → r < 32 }
    ensures plain { (r : ℕ) → r < 32 → AllPass is_name_byte (name_of_register r) }
{}
