//! From instructions to words.

ghost use Rattle.std.specs.Prelude.{◌≡◌, ℕ, ◌<◌, ◌↔◌, IsTrue};
ghost use Rattle.rv_decode.specs.Instructions.{IsOffset, IsWellFormed, IsWithin, Means};

use crate::layouts::{layout_b, layout_i, layout_j, layout_r, layout_s, layout_shift, layout_u};
use crate::operations::{branch_funct3, imm_row, load_funct3, reg_row, shift_row, store_funct3};
use crate::rows::{AUIPC, BRANCH, EBREAK, ECALL, JAL, JALR, LOAD, LUI, MISC_MEM, STORE};
use rv_instr::Instr;

/// Whether each field of the instruction is in the range that its layout gives it.
pub fn well_formed(instr: &Instr) -> bool
    ensures { IsTrue result ↔ IsWellFormed instr.now }
{
    match *instr {
        Instr::Lui { rd, imm } => is_register(rd) && imm < 1 << 20,
        Instr::Auipc { rd, imm } => is_register(rd) && imm < 1 << 20,
        Instr::Jal { rd, off } => is_register(rd) && is_offset(off, 1 << 20),
        Instr::Jalr { rd, rs1, imm } => are_registers(rd, rs1) && is_within(imm, 1 << 11),
        Instr::Branch { rs1, rs2, off, .. } => are_registers(rs1, rs2) && is_offset(off, 1 << 12),
        Instr::Load { rd, rs1, imm, .. } => are_registers(rd, rs1) && is_within(imm, 1 << 11),
        Instr::Store { rs1, rs2, imm, .. } => are_registers(rs1, rs2) && is_within(imm, 1 << 11),
        Instr::Imm { rd, rs1, imm, .. } => are_registers(rd, rs1) && is_within(imm, 1 << 11),
        Instr::Shift { op, rd, rs1, by } => are_registers(rd, rs1) && by < 1 << shift_row(op).width,
        Instr::Reg { rd, rs1, rs2, .. } => are_registers(rd, rs1) && is_register(rs2),
        Instr::Fence { rd, rs1, imm } => are_registers(rd, rs1) && is_within(imm, 1 << 11),
        Instr::Ecall | Instr::Ebreak => true,
    }
}

/// The word of an instruction, which is the only one that stands for it.
pub fn encode(instr: &Instr) -> u32
    requires { IsWellFormed instr.now }
    ensures means { Means result instr.now }
    ensures only { (word : ℕ) → Means word instr.now → result ≡ word }
{
    match *instr {
        Instr::Lui { rd, imm } => layout_u(imm, rd, LUI),
        Instr::Auipc { rd, imm } => layout_u(imm, rd, AUIPC),
        Instr::Jal { rd, off } => layout_j(off, rd, JAL),
        Instr::Jalr { rd, rs1, imm } => layout_i(imm, rs1, 0, rd, JALR),
        Instr::Branch { op, rs1, rs2, off } => layout_b(off, rs2, rs1, branch_funct3(op), BRANCH),
        Instr::Load { op, rd, rs1, imm } => layout_i(imm, rs1, load_funct3(op), rd, LOAD),
        Instr::Store { op, rs1, rs2, imm } => layout_s(imm, rs2, rs1, store_funct3(op), STORE),
        Instr::Imm { op, rd, rs1, imm } => {
            let row = imm_row(op);
            layout_i(imm, rs1, row.funct3, rd, row.opcode)
        }
        Instr::Shift { op, rd, rs1, by } => layout_shift(shift_row(op), by, rs1, rd),
        Instr::Reg { op, rd, rs1, rs2 } => {
            let row = reg_row(op);
            layout_r(row.funct7, rs2, rs1, row.funct3, rd, row.opcode)
        }
        Instr::Fence { rd, rs1, imm } => layout_i(imm, rs1, 0, rd, MISC_MEM),
        Instr::Ecall => ECALL,
        Instr::Ebreak => EBREAK,
    }
}

fn is_register(r: u8) -> bool
    ensures { IsTrue result ↔ (r < 32) }
{
    r < 32
}

fn are_registers(r: u8, s: u8) -> bool
    ensures { IsTrue result ↔ ((r < 32) × (s < 32)) }
{
    is_register(r) && is_register(s)
}

// Whether `z` is from `-m` to `m - 1`.
fn is_within(z: i32, m: u32) -> bool
    ensures { IsTrue result ↔ IsWithin m z }
{
    if z < 0 {
        z.unsigned_abs() <= m
    } else {
        z.unsigned_abs() < m
    }
}

fn is_offset(z: i32, m: u32) -> bool
    ensures { IsTrue result ↔ IsOffset m z }
{
    is_within(z, m) && z % 2 == 0
}
