//! The row of each operation, and the operation of each row.

ghost use Rattle.std.specs.Prelude.{◌≡◌, IfSome};
ghost use Rattle.rv_decode.specs.Instructions.{branch_funct3, load_funct3, store_funct3, imm_row, shift_row, reg_row};

use crate::rows::{
    ALTERNATE, BASE, ImmRow, MULDIV, OP, OP_32, OP_IMM, OP_IMM_32, RegRow, ShiftRow,
};
use rv_instr::{BranchOp, ImmOp, LoadOp, RegOp, ShiftOp, StoreOp};

pub(crate) fn branch_funct3(op: BranchOp) -> u32
    ensures { result ≡ branch_funct3 op }
{
    match op {
        BranchOp::Beq => 0,
        BranchOp::Bne => 1,
        BranchOp::Blt => 4,
        BranchOp::Bge => 5,
        BranchOp::Bltu => 6,
        BranchOp::Bgeu => 7,
    }
}

pub(crate) fn branch_with_funct3(funct3: u32) -> Option<BranchOp>
    ensures found { IfSome result (λ op. branch_funct3 op ≡ funct3) }
    ensures only { (op : BranchOp) → branch_funct3 op ≡ funct3 → result ≡ Some op }
{
    match funct3 {
        0 => Some(BranchOp::Beq),
        1 => Some(BranchOp::Bne),
        4 => Some(BranchOp::Blt),
        5 => Some(BranchOp::Bge),
        6 => Some(BranchOp::Bltu),
        7 => Some(BranchOp::Bgeu),
        _ => None,
    }
}

pub(crate) fn load_funct3(op: LoadOp) -> u32
    ensures { result ≡ load_funct3 op }
{
    match op {
        LoadOp::Lb => 0,
        LoadOp::Lh => 1,
        LoadOp::Lw => 2,
        LoadOp::Ld => 3,
        LoadOp::Lbu => 4,
        LoadOp::Lhu => 5,
        LoadOp::Lwu => 6,
    }
}

pub(crate) fn load_with_funct3(funct3: u32) -> Option<LoadOp>
    ensures found { IfSome result (λ op. load_funct3 op ≡ funct3) }
    ensures only { (op : LoadOp) → load_funct3 op ≡ funct3 → result ≡ Some op }
{
    match funct3 {
        0 => Some(LoadOp::Lb),
        1 => Some(LoadOp::Lh),
        2 => Some(LoadOp::Lw),
        3 => Some(LoadOp::Ld),
        4 => Some(LoadOp::Lbu),
        5 => Some(LoadOp::Lhu),
        6 => Some(LoadOp::Lwu),
        _ => None,
    }
}

pub(crate) fn store_funct3(op: StoreOp) -> u32
    ensures { result ≡ store_funct3 op }
{
    match op {
        StoreOp::Sb => 0,
        StoreOp::Sh => 1,
        StoreOp::Sw => 2,
        StoreOp::Sd => 3,
    }
}

pub(crate) fn store_with_funct3(funct3: u32) -> Option<StoreOp>
    ensures found { IfSome result (λ op. store_funct3 op ≡ funct3) }
    ensures only { (op : StoreOp) → store_funct3 op ≡ funct3 → result ≡ Some op }
{
    match funct3 {
        0 => Some(StoreOp::Sb),
        1 => Some(StoreOp::Sh),
        2 => Some(StoreOp::Sw),
        3 => Some(StoreOp::Sd),
        _ => None,
    }
}

pub(crate) fn imm_row(op: ImmOp) -> ImmRow
    ensures { result ≡ imm_row op }
{
    let (opcode, funct3) = match op {
        ImmOp::Addi => (OP_IMM, 0),
        ImmOp::Slti => (OP_IMM, 2),
        ImmOp::Sltiu => (OP_IMM, 3),
        ImmOp::Xori => (OP_IMM, 4),
        ImmOp::Ori => (OP_IMM, 6),
        ImmOp::Andi => (OP_IMM, 7),
        ImmOp::Addiw => (OP_IMM_32, 0),
    };
    ImmRow { opcode, funct3 }
}

pub(crate) fn imm_with_row(row: ImmRow) -> Option<ImmOp>
    ensures found { IfSome result (λ op. imm_row op ≡ row) }
    ensures only { (op : ImmOp) → imm_row op ≡ row → result ≡ Some op }
{
    match (row.opcode, row.funct3) {
        (OP_IMM, 0) => Some(ImmOp::Addi),
        (OP_IMM, 2) => Some(ImmOp::Slti),
        (OP_IMM, 3) => Some(ImmOp::Sltiu),
        (OP_IMM, 4) => Some(ImmOp::Xori),
        (OP_IMM, 6) => Some(ImmOp::Ori),
        (OP_IMM, 7) => Some(ImmOp::Andi),
        (OP_IMM_32, 0) => Some(ImmOp::Addiw),
        _ => None,
    }
}

pub(crate) fn shift_row(op: ShiftOp) -> ShiftRow
    ensures { result ≡ shift_row op }
{
    let (opcode, funct3, width, above) = match op {
        ShiftOp::Slli => (OP_IMM, 1, 6, 0x00),
        ShiftOp::Srli => (OP_IMM, 5, 6, 0x00),
        ShiftOp::Srai => (OP_IMM, 5, 6, 0x10),
        ShiftOp::Slliw => (OP_IMM_32, 1, 5, 0x00),
        ShiftOp::Srliw => (OP_IMM_32, 5, 5, 0x00),
        ShiftOp::Sraiw => (OP_IMM_32, 5, 5, 0x20),
    };
    ShiftRow {
        opcode,
        funct3,
        width,
        above,
    }
}

pub(crate) fn shift_with_row(row: ShiftRow) -> Option<ShiftOp>
    ensures found { IfSome result (λ op. shift_row op ≡ row) }
    ensures only { (op : ShiftOp) → shift_row op ≡ row → result ≡ Some op }
{
    match (row.opcode, row.funct3, row.width, row.above) {
        (OP_IMM, 1, 6, 0x00) => Some(ShiftOp::Slli),
        (OP_IMM, 5, 6, 0x00) => Some(ShiftOp::Srli),
        (OP_IMM, 5, 6, 0x10) => Some(ShiftOp::Srai),
        (OP_IMM_32, 1, 5, 0x00) => Some(ShiftOp::Slliw),
        (OP_IMM_32, 5, 5, 0x00) => Some(ShiftOp::Srliw),
        (OP_IMM_32, 5, 5, 0x20) => Some(ShiftOp::Sraiw),
        _ => None,
    }
}

pub(crate) fn reg_row(op: RegOp) -> RegRow
    ensures { result ≡ reg_row op }
{
    let (opcode, funct3, funct7) = match op {
        RegOp::Add => (OP, 0, BASE),
        RegOp::Sll => (OP, 1, BASE),
        RegOp::Slt => (OP, 2, BASE),
        RegOp::Sltu => (OP, 3, BASE),
        RegOp::Xor => (OP, 4, BASE),
        RegOp::Srl => (OP, 5, BASE),
        RegOp::Or => (OP, 6, BASE),
        RegOp::And => (OP, 7, BASE),
        RegOp::Sub => (OP, 0, ALTERNATE),
        RegOp::Sra => (OP, 5, ALTERNATE),
        RegOp::Mul => (OP, 0, MULDIV),
        RegOp::Mulh => (OP, 1, MULDIV),
        RegOp::Mulhsu => (OP, 2, MULDIV),
        RegOp::Mulhu => (OP, 3, MULDIV),
        RegOp::Div => (OP, 4, MULDIV),
        RegOp::Divu => (OP, 5, MULDIV),
        RegOp::Rem => (OP, 6, MULDIV),
        RegOp::Remu => (OP, 7, MULDIV),
        RegOp::Addw => (OP_32, 0, BASE),
        RegOp::Sllw => (OP_32, 1, BASE),
        RegOp::Srlw => (OP_32, 5, BASE),
        RegOp::Subw => (OP_32, 0, ALTERNATE),
        RegOp::Sraw => (OP_32, 5, ALTERNATE),
        RegOp::Mulw => (OP_32, 0, MULDIV),
        RegOp::Divw => (OP_32, 4, MULDIV),
        RegOp::Divuw => (OP_32, 5, MULDIV),
        RegOp::Remw => (OP_32, 6, MULDIV),
        RegOp::Remuw => (OP_32, 7, MULDIV),
    };
    RegRow {
        opcode,
        funct3,
        funct7,
    }
}

pub(crate) fn reg_with_row(row: RegRow) -> Option<RegOp>
    ensures found { IfSome result (λ op. reg_row op ≡ row) }
    ensures only { (op : RegOp) → reg_row op ≡ row → result ≡ Some op }
{
    match (row.opcode, row.funct3, row.funct7) {
        (OP, 0, BASE) => Some(RegOp::Add),
        (OP, 1, BASE) => Some(RegOp::Sll),
        (OP, 2, BASE) => Some(RegOp::Slt),
        (OP, 3, BASE) => Some(RegOp::Sltu),
        (OP, 4, BASE) => Some(RegOp::Xor),
        (OP, 5, BASE) => Some(RegOp::Srl),
        (OP, 6, BASE) => Some(RegOp::Or),
        (OP, 7, BASE) => Some(RegOp::And),
        (OP, 0, ALTERNATE) => Some(RegOp::Sub),
        (OP, 5, ALTERNATE) => Some(RegOp::Sra),
        (OP, 0, MULDIV) => Some(RegOp::Mul),
        (OP, 1, MULDIV) => Some(RegOp::Mulh),
        (OP, 2, MULDIV) => Some(RegOp::Mulhsu),
        (OP, 3, MULDIV) => Some(RegOp::Mulhu),
        (OP, 4, MULDIV) => Some(RegOp::Div),
        (OP, 5, MULDIV) => Some(RegOp::Divu),
        (OP, 6, MULDIV) => Some(RegOp::Rem),
        (OP, 7, MULDIV) => Some(RegOp::Remu),
        (OP_32, 0, BASE) => Some(RegOp::Addw),
        (OP_32, 1, BASE) => Some(RegOp::Sllw),
        (OP_32, 5, BASE) => Some(RegOp::Srlw),
        (OP_32, 0, ALTERNATE) => Some(RegOp::Subw),
        (OP_32, 5, ALTERNATE) => Some(RegOp::Sraw),
        (OP_32, 0, MULDIV) => Some(RegOp::Mulw),
        (OP_32, 4, MULDIV) => Some(RegOp::Divw),
        (OP_32, 5, MULDIV) => Some(RegOp::Divuw),
        (OP_32, 6, MULDIV) => Some(RegOp::Remw),
        (OP_32, 7, MULDIV) => Some(RegOp::Remuw),
        _ => None,
    }
}
