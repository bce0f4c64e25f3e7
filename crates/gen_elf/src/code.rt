//! The code of a generated file.

ghost use Rattle.std.specs.Prelude.{◌≡◌, ◌≤◌, All, OnOk};
ghost use Rattle.rv_decode.specs.Instructions.{IsWellFormed};
ghost use Rattle.gen_elf.specs.Generated.{AddsCode, IsInRange, call_offset, procedure_code, start_code};

use elf_write::push_number;
use rv_decode::{BranchOp, ImmOp, Instr, LoadOp, StoreOp, encode};
use std::alloc::AllocError;

const ZERO: u8 = 0;

const RA: u8 = 1;

const SP: u8 = 2;

const A0: u8 = 10;

/// The code at the entry.
pub fn start_code() -> [Instr; 3]
    ensures code { result ≡ start_code }
    ensures formed { All IsWellFormed result }
{
    [
        addi(A0, ZERO, 0),
        Instr::Jal { rd: RA, off: 8 },
        Instr::Ebreak,
    ]
}

/// The code of procedure `i` of `n`.
pub fn procedure_code(n: u32, i: u32) -> [Instr; 8]
    requires range { IsInRange n }
    requires first { 1 ≤ i }
    requires last { i ≤ n }
    ensures code { result ≡ procedure_code n i }
    ensures formed { All IsWellFormed result }
{
    [
        addi(SP, SP, -16),
        Instr::Store {
            op: StoreOp::Sd,
            rs1: SP,
            rs2: RA,
            imm: 8,
        },
        addi(A0, A0, i as i32),
        Instr::Branch {
            op: BranchOp::Beq,
            rs1: A0,
            rs2: ZERO,
            off: 8,
        },
        Instr::Jal {
            rd: RA,
            off: call_offset(n, i),
        },
        Instr::Load {
            op: LoadOp::Ld,
            rd: RA,
            rs1: SP,
            imm: 8,
        },
        addi(SP, SP, 16),
        Instr::Jalr {
            rd: ZERO,
            rs1: RA,
            imm: 0,
        },
    ]
}

// From the call in procedure `i` to the procedure that it calls.
fn call_offset(n: u32, i: u32) -> i32
    requires range { IsInRange n }
    requires first { 1 ≤ i }
    requires last { i ≤ n }
    ensures { result ≡ call_offset n i }
{
    if i == n { 16 - 32 * n as i32 } else { 16 }
}

fn addi(rd: u8, rs1: u8, imm: i32) -> Instr
    ensures { result ≡ Instr.Imm ImmOp.Addi rd rs1 imm }
{
    Instr::Imm {
        op: ImmOp::Addi,
        rd,
        rs1,
        imm,
    }
}

/// Appends the words of the code.
pub fn push_code(file: &mut Vec<u8>, code: &[Instr]) -> Result<(), AllocError>
    requires { All IsWellFormed code.now }
    ensures { OnOk result (AddsCode file.old.items code.now file.new.items) }
{
    for instr in code {
        push_number(file, 4, u64::from(encode(instr)))?;
    }
    Ok(())
}
