//! Words put together from their fields, a layout each.

ghost use Rattle.std.specs.Prelude.{◌-◌, ◌<◌, ◌≤◌, ◌^◌, ◌∷◌, []};
ghost use Rattle.rv_decode.specs.Layouts.{Fit, IsB, IsI, IsJ, IsR, IsS, IsShift, IsSigned, IsU};
ghost use Rattle.rv_decode.specs.Instructions.{IsOffset, IsWithin};

use crate::fields::field;
use crate::rows::ShiftRow;

pub(crate) fn layout_r(funct7: u32, rs2: u8, rs1: u8, funct3: u32, rd: u8, opcode: u32) -> u32
    requires { Fit ((7, funct7) ∷ (5, rs2) ∷ (5, rs1) ∷ (3, funct3) ∷ (5, rd) ∷ (7, opcode) ∷ []) }
    ensures { IsR result funct7 rs2 rs1 funct3 rd opcode }
{
    (funct7 << 25)
        + (u32::from(rs2) << 20)
        + (u32::from(rs1) << 15)
        + (funct3 << 12)
        + (u32::from(rd) << 7)
        + opcode
}

pub(crate) fn layout_i(imm: i32, rs1: u8, funct3: u32, rd: u8, opcode: u32) -> u32
    requires imm { IsWithin (2 ^ 11) imm }
    requires fields { Fit ((5, rs1) ∷ (3, funct3) ∷ (5, rd) ∷ (7, opcode) ∷ []) }
    ensures { IsI result imm rs1 funct3 rd opcode }
{
    let bits = bits_of(imm, 1 << 11);
    (bits << 20) + (u32::from(rs1) << 15) + (funct3 << 12) + (u32::from(rd) << 7) + opcode
}

// Layout I with a shift in the place of the immediate.
pub(crate) fn layout_shift(row: ShiftRow, by: u8, rs1: u8, rd: u8) -> u32
    requires width { (5 ≤ row.width) × (row.width ≤ 6) }
    requires fields { Fit ((12 - row.width, row.above) ∷ (row.width, by)
        ∷ (5, rs1) ∷ (3, row.funct3) ∷ (5, rd) ∷ (7, row.opcode) ∷ []) }
    ensures { IsShift row.width result row.above by rs1 row.funct3 rd row.opcode }
{
    let imm = (row.above << row.width) + u32::from(by);
    (imm << 20) + (u32::from(rs1) << 15) + (row.funct3 << 12) + (u32::from(rd) << 7) + row.opcode
}

pub(crate) fn layout_s(imm: i32, rs2: u8, rs1: u8, funct3: u32, opcode: u32) -> u32
    requires imm { IsWithin (2 ^ 11) imm }
    requires fields { Fit ((5, rs2) ∷ (5, rs1) ∷ (3, funct3) ∷ (7, opcode) ∷ []) }
    ensures { IsS result imm rs2 rs1 funct3 opcode }
{
    let bits = bits_of(imm, 1 << 11);
    (field(bits, 5, 7) << 25)
        + (u32::from(rs2) << 20)
        + (u32::from(rs1) << 15)
        + (funct3 << 12)
        + (field(bits, 0, 5) << 7)
        + opcode
}

pub(crate) fn layout_b(off: i32, rs2: u8, rs1: u8, funct3: u32, opcode: u32) -> u32
    requires off { IsOffset (2 ^ 12) off }
    requires fields { Fit ((5, rs2) ∷ (5, rs1) ∷ (3, funct3) ∷ (7, opcode) ∷ []) }
    ensures { IsB result off rs2 rs1 funct3 opcode }
{
    let bits = bits_of(off, 1 << 12);
    (field(bits, 12, 1) << 31)
        + (field(bits, 5, 6) << 25)
        + (u32::from(rs2) << 20)
        + (u32::from(rs1) << 15)
        + (funct3 << 12)
        + (field(bits, 1, 4) << 8)
        + (field(bits, 11, 1) << 7)
        + opcode
}

pub(crate) fn layout_u(imm: u32, rd: u8, opcode: u32) -> u32
    requires { Fit ((20, imm) ∷ (5, rd) ∷ (7, opcode) ∷ []) }
    ensures { IsU result imm rd opcode }
{
    (imm << 12) + (u32::from(rd) << 7) + opcode
}

pub(crate) fn layout_j(off: i32, rd: u8, opcode: u32) -> u32
    requires off { IsOffset (2 ^ 20) off }
    requires fields { Fit ((5, rd) ∷ (7, opcode) ∷ []) }
    ensures { IsJ result off rd opcode }
{
    let bits = bits_of(off, 1 << 20);
    (field(bits, 20, 1) << 31)
        + (field(bits, 1, 10) << 21)
        + (field(bits, 11, 1) << 20)
        + (field(bits, 12, 8) << 12)
        + (u32::from(rd) << 7)
        + opcode
}

// The bits of `z` in two's complement, where the highest one counts `-sign`.
fn bits_of(z: i32, sign: u32) -> u32
    requires sign { sign ≤ 2 ^ 30 }
    requires z { IsWithin sign z }
    ensures { IsSigned sign result z }
{
    if z < 0 {
        2 * sign - z.unsigned_abs()
    } else {
        z.unsigned_abs()
    }
}
