//! Instructions as text.

ghost use Rattle.std.specs.Prelude.{◌≡◌, IfOk};
ghost use Rattle.std.specs.String.{string_bytes};
ghost use Rattle.rv_decode.specs.Instructions.{IsWellFormed};
ghost use Rattle.rv_text.specs.Text.{instr_text};

use crate::mnemonics::{branch_name, imm_name, load_name, reg_name, shift_name, store_name};
use rv_decode::{Instr, register_name as name};
use std::alloc::{AllocError, Global};

/// The text of an instruction, as `addi sp,sp,-16`, `sd ra,8(sp)` or `auipc ra,0x0`.
///
/// Registers have their psABI names, the immediates of LUI and AUIPC are in hexadecimal, and all other
/// numbers are in decimal. A fence is `fence`, whatever its free bits are.
pub fn write_instr(alloc: Global, instr: &Instr) -> Result<String, AllocError>
    requires { IsWellFormed instr.now }
    ensures { IfOk result (λ text. string_bytes text ≡ instr_text instr.now) }
{
    match *instr {
        Instr::Lui { rd, imm } => format!(in alloc; "lui {},0x{imm:x}", name(rd)),
        Instr::Auipc { rd, imm } => format!(in alloc; "auipc {},0x{imm:x}", name(rd)),
        Instr::Jal { rd, off } => format!(in alloc; "jal {},{off}", name(rd)),
        Instr::Jalr { rd, rs1, imm } => format!(in alloc; "jalr {},{imm}({})", name(rd), name(rs1)),
        Instr::Branch { op, rs1, rs2, off } => {
            format!(in alloc; "{} {},{},{off}", branch_name(op), name(rs1), name(rs2))
        }
        Instr::Load { op, rd, rs1, imm } => {
            format!(in alloc; "{} {},{imm}({})", load_name(op), name(rd), name(rs1))
        }
        Instr::Store { op, rs1, rs2, imm } => {
            format!(in alloc; "{} {},{imm}({})", store_name(op), name(rs2), name(rs1))
        }
        Instr::Imm { op, rd, rs1, imm } => {
            format!(in alloc; "{} {},{},{imm}", imm_name(op), name(rd), name(rs1))
        }
        Instr::Shift { op, rd, rs1, by } => {
            format!(in alloc; "{} {},{},{by}", shift_name(op), name(rd), name(rs1))
        }
        Instr::Reg { op, rd, rs1, rs2 } => {
            format!(in alloc; "{} {},{},{}", reg_name(op), name(rd), name(rs1), name(rs2))
        }
        Instr::Fence { .. } => String::from_str(alloc, "fence"),
        Instr::Ecall => String::from_str(alloc, "ecall"),
        Instr::Ebreak => String::from_str(alloc, "ebreak"),
    }
}
