//! From words to instructions.

ghost use Rattle.std.specs.Prelude.{◌≡◌, ◌↔◌, ◌⊎◌, IsTrue, IfNone, IfSome};
ghost use Rattle.rv_decode.specs.Instructions.{IsWellFormed, Means, MeansNothing};
ghost use Rattle.rv_decode.specs.Layouts.{bits_at};

use crate::fields::{
    field, funct3, funct7, immediate_b, immediate_i, immediate_j, immediate_s, immediate_u, opcode,
    rd, rs1, rs2,
};
use crate::operations::{
    branch_with_funct3, imm_with_row, load_with_funct3, reg_with_row, shift_with_row,
    store_with_funct3,
};
use crate::rows::{
    AUIPC, BRANCH, EBREAK, ECALL, ImmRow, JAL, JALR, LOAD, LUI, MISC_MEM, OP, OP_32, OP_IMM,
    OP_IMM_32, RegRow, STORE, SYSTEM, ShiftRow,
};
use rv_instr::Instr;

/// The instruction that an instruction word stands for, by the listings of the RISC-V Unprivileged ISA
/// ("RV32/64G Instruction Set Listings"); `None` exactly where no row of the table has the word.
#[tactic(auto, using(crate::proofs::Table::one_instruction, crate::proofs::Table::in_range))]
pub fn decode(word: u32) -> Option<Instr>
    ensures found { IfSome result (Means word) }
    ensures only { (instr : Instr) → Means word instr → result ≡ Some instr }
    ensures in_range { IfSome result IsWellFormed }
{
    match opcode(word) {
        LUI | AUIPC => Some(decode_upper(word)),
        JAL | JALR => decode_jump(word),
        BRANCH => decode_branch(word),
        LOAD => decode_load(word),
        STORE => decode_store(word),
        OP_IMM | OP_IMM_32 if is_shift(funct3(word)) => decode_shift(word),
        OP_IMM | OP_IMM_32 => decode_imm(word),
        OP | OP_32 => decode_reg(word),
        MISC_MEM | SYSTEM => decode_fence_or_system(word),
        _ => None,
    }
}

fn decode_upper(word: u32) -> Instr
    requires { (bits_at word 0 7 ≡ 0x37) ⊎ (bits_at word 0 7 ≡ 0x17) }
    ensures { Means word result }
{
    let (rd, imm) = (rd(word), immediate_u(word));
    if opcode(word) == LUI {
        Instr::Lui { rd, imm }
    } else {
        Instr::Auipc { rd, imm }
    }
}

fn decode_jump(word: u32) -> Option<Instr>
    requires { (bits_at word 0 7 ≡ 0x6f) ⊎ (bits_at word 0 7 ≡ 0x67) }
    ensures found { IfSome result (Means word) }
    ensures none { IfNone result (MeansNothing word) }
{
    match opcode(word) {
        JAL => Some(Instr::Jal {
            rd: rd(word),
            off: immediate_j(word),
        }),
        JALR if funct3(word) == 0 => Some(Instr::Jalr {
            rd: rd(word),
            rs1: rs1(word),
            imm: immediate_i(word),
        }),
        _ => None,
    }
}

fn decode_branch(word: u32) -> Option<Instr>
    requires { bits_at word 0 7 ≡ 0x63 }
    ensures found { IfSome result (Means word) }
    ensures none { IfNone result (MeansNothing word) }
{
    let op = branch_with_funct3(funct3(word))?;
    Some(Instr::Branch {
        op,
        rs1: rs1(word),
        rs2: rs2(word),
        off: immediate_b(word),
    })
}

fn decode_load(word: u32) -> Option<Instr>
    requires { bits_at word 0 7 ≡ 0x03 }
    ensures found { IfSome result (Means word) }
    ensures none { IfNone result (MeansNothing word) }
{
    let op = load_with_funct3(funct3(word))?;
    Some(Instr::Load {
        op,
        rd: rd(word),
        rs1: rs1(word),
        imm: immediate_i(word),
    })
}

fn decode_store(word: u32) -> Option<Instr>
    requires { bits_at word 0 7 ≡ 0x23 }
    ensures found { IfSome result (Means word) }
    ensures none { IfNone result (MeansNothing word) }
{
    let op = store_with_funct3(funct3(word))?;
    Some(Instr::Store {
        op,
        rs1: rs1(word),
        rs2: rs2(word),
        imm: immediate_s(word),
    })
}

// The rows of OP-IMM and OP-IMM-32 that are shifts.
fn decode_shift(word: u32) -> Option<Instr>
    requires opcode { (bits_at word 0 7 ≡ 0x13) ⊎ (bits_at word 0 7 ≡ 0x1b) }
    requires shift { (bits_at word 12 3 ≡ 1) ⊎ (bits_at word 12 3 ≡ 5) }
    ensures found { IfSome result (Means word) }
    ensures none { IfNone result (MeansNothing word) }
{
    let (opcode, funct3) = (opcode(word), funct3(word));
    let width = if opcode == OP_IMM { 6 } else { 5 };
    let op = shift_with_row(ShiftRow {
        opcode,
        funct3,
        width,
        above: field(word, 20 + width, 12 - width),
    })?;
    Some(Instr::Shift {
        op,
        rd: rd(word),
        rs1: rs1(word),
        by: field(word, 20, width) as u8,
    })
}

// The other rows of OP-IMM and OP-IMM-32.
fn decode_imm(word: u32) -> Option<Instr>
    requires opcode { (bits_at word 0 7 ≡ 0x13) ⊎ (bits_at word 0 7 ≡ 0x1b) }
    requires no_shift { (bits_at word 12 3 ≡ 1) ⊎ (bits_at word 12 3 ≡ 5) → ⊥ }
    ensures found { IfSome result (Means word) }
    ensures none { IfNone result (MeansNothing word) }
{
    let op = imm_with_row(ImmRow {
        opcode: opcode(word),
        funct3: funct3(word),
    })?;
    Some(Instr::Imm {
        op,
        rd: rd(word),
        rs1: rs1(word),
        imm: immediate_i(word),
    })
}

fn decode_reg(word: u32) -> Option<Instr>
    requires { (bits_at word 0 7 ≡ 0x33) ⊎ (bits_at word 0 7 ≡ 0x3b) }
    ensures found { IfSome result (Means word) }
    ensures none { IfNone result (MeansNothing word) }
{
    let op = reg_with_row(RegRow {
        opcode: opcode(word),
        funct3: funct3(word),
        funct7: funct7(word),
    })?;
    Some(Instr::Reg {
        op,
        rd: rd(word),
        rs1: rs1(word),
        rs2: rs2(word),
    })
}

fn decode_fence_or_system(word: u32) -> Option<Instr>
    requires { (bits_at word 0 7 ≡ 0x0f) ⊎ (bits_at word 0 7 ≡ 0x73) }
    ensures found { IfSome result (Means word) }
    ensures none { IfNone result (MeansNothing word) }
{
    match opcode(word) {
        MISC_MEM if funct3(word) == 0 => Some(Instr::Fence {
            rd: rd(word),
            rs1: rs1(word),
            imm: immediate_i(word),
        }),
        SYSTEM if word == ECALL => Some(Instr::Ecall),
        SYSTEM if word == EBREAK => Some(Instr::Ebreak),
        _ => None,
    }
}

// Whether the rows of OP-IMM and OP-IMM-32 with this funct3 are shifts.
fn is_shift(funct3: u32) -> bool
    ensures { IsTrue result ↔ ((funct3 ≡ 1) ⊎ (funct3 ≡ 5)) }
{
    funct3 == 1 || funct3 == 5
}
