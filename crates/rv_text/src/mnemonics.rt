//! The mnemonic of each operation.

ghost use Rattle.std.specs.Prelude.{◌≡◌};
ghost use Rattle.rv_text.specs.Text.{branch_mnemonic, load_mnemonic, store_mnemonic, imm_mnemonic, shift_mnemonic, reg_mnemonic};

use rv_decode::{BranchOp, ImmOp, LoadOp, RegOp, ShiftOp, StoreOp};

pub(crate) fn branch_name(op: BranchOp) -> &'static str
    ensures { result.now ≡ branch_mnemonic op }
{
    match op {
        BranchOp::Beq => "beq",
        BranchOp::Bne => "bne",
        BranchOp::Blt => "blt",
        BranchOp::Bge => "bge",
        BranchOp::Bltu => "bltu",
        BranchOp::Bgeu => "bgeu",
    }
}

pub(crate) fn load_name(op: LoadOp) -> &'static str
    ensures { result.now ≡ load_mnemonic op }
{
    match op {
        LoadOp::Lb => "lb",
        LoadOp::Lh => "lh",
        LoadOp::Lw => "lw",
        LoadOp::Ld => "ld",
        LoadOp::Lbu => "lbu",
        LoadOp::Lhu => "lhu",
        LoadOp::Lwu => "lwu",
    }
}

pub(crate) fn store_name(op: StoreOp) -> &'static str
    ensures { result.now ≡ store_mnemonic op }
{
    match op {
        StoreOp::Sb => "sb",
        StoreOp::Sh => "sh",
        StoreOp::Sw => "sw",
        StoreOp::Sd => "sd",
    }
}

pub(crate) fn imm_name(op: ImmOp) -> &'static str
    ensures { result.now ≡ imm_mnemonic op }
{
    match op {
        ImmOp::Addi => "addi",
        ImmOp::Slti => "slti",
        ImmOp::Sltiu => "sltiu",
        ImmOp::Xori => "xori",
        ImmOp::Ori => "ori",
        ImmOp::Andi => "andi",
        ImmOp::Addiw => "addiw",
    }
}

pub(crate) fn shift_name(op: ShiftOp) -> &'static str
    ensures { result.now ≡ shift_mnemonic op }
{
    match op {
        ShiftOp::Slli => "slli",
        ShiftOp::Srli => "srli",
        ShiftOp::Srai => "srai",
        ShiftOp::Slliw => "slliw",
        ShiftOp::Srliw => "srliw",
        ShiftOp::Sraiw => "sraiw",
    }
}

pub(crate) fn reg_name(op: RegOp) -> &'static str
    ensures { result.now ≡ reg_mnemonic op }
{
    match op {
        RegOp::Add => "add",
        RegOp::Sub => "sub",
        RegOp::Sll => "sll",
        RegOp::Slt => "slt",
        RegOp::Sltu => "sltu",
        RegOp::Xor => "xor",
        RegOp::Srl => "srl",
        RegOp::Sra => "sra",
        RegOp::Or => "or",
        RegOp::And => "and",
        RegOp::Mul => "mul",
        RegOp::Mulh => "mulh",
        RegOp::Mulhsu => "mulhsu",
        RegOp::Mulhu => "mulhu",
        RegOp::Div => "div",
        RegOp::Divu => "divu",
        RegOp::Rem => "rem",
        RegOp::Remu => "remu",
        RegOp::Addw => "addw",
        RegOp::Subw => "subw",
        RegOp::Sllw => "sllw",
        RegOp::Srlw => "srlw",
        RegOp::Sraw => "sraw",
        RegOp::Mulw => "mulw",
        RegOp::Divw => "divw",
        RegOp::Divuw => "divuw",
        RegOp::Remw => "remw",
        RegOp::Remuw => "remuw",
    }
}
