//! What instructions compute from words.

ghost use Rattle.std.specs.Prelude.{◌≡◌, ◌<◌, ◌^◌, pos, ◌+ℤ◌};
ghost use Rattle.rv_decode.specs.Instructions.{shift_row};
ghost use Rattle.rv_step.specs.Words.{word};
ghost use Rattle.rv_step.specs.Results.{upper, reg_result, imm_result, shift_result, is_taken};

use crate::division::{div, divu, divuw, divw, rem, remu, remuw, remw};
use crate::product::{mulh, mulhsu, mulhu};
use crate::words::{extended, low, signed_low, word};
use rv_decode::{BranchOp, ImmOp, RegOp, ShiftOp};

/// The immediate of LUI and AUIPC.
pub fn upper(imm: u32) -> u64
    ensures { result ≡ upper imm }
{
    extended(imm << 12)
}

/// The sum with a signed number.
pub fn plus(a: u64, offset: i32) -> u64
    ensures { result ≡ word (pos a +ℤ offset) }
{
    a.wrapping_add(word(offset))
}

/// The branch is taken.
pub(crate) fn is_taken(op: BranchOp, a: u64, b: u64) -> bool
    ensures { result ≡ is_taken op a b }
{
    match op {
        BranchOp::Beq => a == b,
        BranchOp::Bne => a != b,
        BranchOp::Blt => a.cast_signed() < b.cast_signed(),
        BranchOp::Bge => a.cast_signed() >= b.cast_signed(),
        BranchOp::Bltu => a < b,
        BranchOp::Bgeu => a >= b,
    }
}

/// What an operation with an immediate gives.
pub fn imm_result(op: ImmOp, a: u64, imm: i32) -> u64
    ensures { result ≡ imm_result op a imm }
{
    match op {
        ImmOp::Addi => plus(a, imm),
        ImmOp::Slti => u64::from(a.cast_signed() < i64::from(imm)),
        ImmOp::Sltiu => u64::from(a < word(imm)),
        ImmOp::Xori => a ^ word(imm),
        ImmOp::Ori => a | word(imm),
        ImmOp::Andi => a & word(imm),
        ImmOp::Addiw => extended(low(plus(a, imm))),
    }
}

/// What a shift by a constant gives.
#[tactic(auto, using(crate::proofs::LowWords::low_shift))]
pub fn shift_result(op: ShiftOp, a: u64, by: u8) -> u64
    requires { by < 2 ^ (shift_row op).width }
    ensures { result ≡ shift_result op a by }
{
    match op {
        ShiftOp::Slli => a << by,
        ShiftOp::Srli => a >> by,
        ShiftOp::Srai => (a.cast_signed() >> by).cast_unsigned(),
        ShiftOp::Slliw => extended(low(a) << by),
        ShiftOp::Srliw => extended(low(a) >> by),
        ShiftOp::Sraiw => extended((signed_low(a) >> by).cast_unsigned()),
    }
}

/// What an operation of two registers gives.
#[tactic(auto, using(crate::proofs::LowWords::low_shift, crate::proofs::LowWords::low_product))]
pub fn reg_result(op: RegOp, a: u64, b: u64) -> u64
    ensures { result ≡ reg_result op a b }
{
    match op {
        RegOp::Add => a.wrapping_add(b),
        RegOp::Sub => a.wrapping_sub(b),
        RegOp::Sll => a << (b % 64),
        RegOp::Slt => u64::from(a.cast_signed() < b.cast_signed()),
        RegOp::Sltu => u64::from(a < b),
        RegOp::Xor => a ^ b,
        RegOp::Srl => a >> (b % 64),
        RegOp::Sra => (a.cast_signed() >> (b % 64)).cast_unsigned(),
        RegOp::Or => a | b,
        RegOp::And => a & b,
        RegOp::Mul => a.wrapping_mul(b),
        RegOp::Mulh => mulh(a, b),
        RegOp::Mulhsu => mulhsu(a, b),
        RegOp::Mulhu => mulhu(a, b),
        RegOp::Div => div(a, b),
        RegOp::Divu => divu(a, b),
        RegOp::Rem => rem(a, b),
        RegOp::Remu => remu(a, b),
        RegOp::Addw => extended(low(a).wrapping_add(low(b))),
        RegOp::Subw => extended(low(a).wrapping_sub(low(b))),
        RegOp::Sllw => extended(low(a) << (b % 32)),
        RegOp::Srlw => extended(low(a) >> (b % 32)),
        RegOp::Sraw => extended((signed_low(a) >> (b % 32)).cast_unsigned()),
        RegOp::Mulw => extended(low(a).wrapping_mul(low(b))),
        RegOp::Divw => divw(a, b),
        RegOp::Divuw => divuw(a, b),
        RegOp::Remw => remw(a, b),
        RegOp::Remuw => remuw(a, b),
    }
}
