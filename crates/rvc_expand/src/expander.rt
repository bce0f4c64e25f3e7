//! From halves to instructions.

ghost use Rattle.std.specs.Prelude.{◌≡◌, IfSome};
ghost use Rattle.rv_decode.specs.Layouts.{bits_at};
ghost use Rattle.rv_decode.specs.Instructions.{IsWellFormed};
ghost use Rattle.rvc_expand.specs.Halves.{IsIn};
ghost use Rattle.rvc_expand.specs.Rows.{Expands};

use crate::fields::{field, funct3, op, rd, rs2, short_register};
use crate::immediates::{
    addi4spn_bits, addi16sp_bits, branch_offset, constant, double_bits, frame_constant,
    jump_offset, ldsp_bits, lwsp_bits, sdsp_bits, six_bits, swsp_bits, upper_bits, word_bits,
};
use rv_decode::{BranchOp, ImmOp, Instr, LoadOp, RegOp, ShiftOp, StoreOp};

const ZERO: u8 = 0;

const RA: u8 = 1;

const SP: u8 = 2;

/// The instruction to which a half expands, by the listings of the RISC-V Unprivileged ISA ("RVC
/// Instruction Set Listings"); `None` exactly where no row of the table has the half.
pub fn expand(half: u16) -> Option<Instr>
    ensures found { IfSome result (Expands half) }
    ensures only { (instr : Instr) → Expands half instr → result ≡ Some instr }
    ensures in_range { IfSome result IsWellFormed }
{
    match op(half) {
        0 => quadrant_0(half),
        1 => quadrant_1(half),
        2 => quadrant_2(half),
        _ => None,
    }
}

// The rows at the registers x8 to x15: an address in the frame, loads and stores.
fn quadrant_0(half: u16) -> Option<Instr>
    requires { bits_at half 0 2 ≡ 0 }
    ensures found { IfSome result (Expands half) }
    ensures only { (instr : Instr) → Expands half instr → result ≡ Some instr }
    ensures in_range { IfSome result IsWellFormed }
{
    let (rd, rs1) = (short_register(half, 2), short_register(half, 7));
    match funct3(half) {
        0 if addi4spn_bits(half) != 0 => Some(Instr::Imm {
            op: ImmOp::Addi,
            rd,
            rs1: SP,
            imm: addi4spn_bits(half) as i32,
        }),
        2 => Some(Instr::Load {
            op: LoadOp::Lw,
            rd,
            rs1,
            imm: word_bits(half) as i32,
        }),
        3 => Some(Instr::Load {
            op: LoadOp::Ld,
            rd,
            rs1,
            imm: double_bits(half) as i32,
        }),
        6 => Some(Instr::Store {
            op: StoreOp::Sw,
            rs1,
            rs2: rd,
            imm: word_bits(half) as i32,
        }),
        7 => Some(Instr::Store {
            op: StoreOp::Sd,
            rs1,
            rs2: rd,
            imm: double_bits(half) as i32,
        }),
        _ => None,
    }
}

// The rows with a constant, those of arithmetic at the registers x8 to x15, jumps and branches.
fn quadrant_1(half: u16) -> Option<Instr>
    requires { bits_at half 0 2 ≡ 1 }
    ensures found { IfSome result (Expands half) }
    ensures only { (instr : Instr) → Expands half instr → result ≡ Some instr }
    ensures in_range { IfSome result IsWellFormed }
{
    let rd = rd(half);
    let imm = constant(half);
    match funct3(half) {
        0 => Some(Instr::Imm {
            op: ImmOp::Addi,
            rd,
            rs1: rd,
            imm,
        }),
        1 if rd != ZERO => Some(Instr::Imm {
            op: ImmOp::Addiw,
            rd,
            rs1: rd,
            imm,
        }),
        2 => Some(Instr::Imm {
            op: ImmOp::Addi,
            rd,
            rs1: ZERO,
            imm,
        }),
        3 => addi16sp_or_lui(half),
        4 => arithmetic(half),
        5 => Some(Instr::Jal {
            rd: ZERO,
            off: jump_offset(half),
        }),
        6 => Some(Instr::Branch {
            op: BranchOp::Beq,
            rs1: short_register(half, 7),
            rs2: ZERO,
            off: branch_offset(half),
        }),
        7 => Some(Instr::Branch {
            op: BranchOp::Bne,
            rs1: short_register(half, 7),
            rs2: ZERO,
            off: branch_offset(half),
        }),
        _ => None,
    }
}

// C.ADDI16SP, whose register is sp, and C.LUI, whose register is another.
fn addi16sp_or_lui(half: u16) -> Option<Instr>
    requires { IsIn half 1 3 }
    ensures found { IfSome result (Expands half) }
    ensures only { (instr : Instr) → Expands half instr → result ≡ Some instr }
    ensures in_range { IfSome result IsWellFormed }
{
    let rd = rd(half);
    if rd == SP {
        if addi16sp_bits(half) == 0 {
            return None;
        }
        Some(Instr::Imm {
            op: ImmOp::Addi,
            rd: SP,
            rs1: SP,
            imm: frame_constant(half),
        })
    } else {
        if six_bits(half) == 0 {
            return None;
        }
        Some(Instr::Lui {
            rd,
            imm: upper_bits(half),
        })
    }
}

// The shifts to the right, C.ANDI, and the operations of two registers.
fn arithmetic(half: u16) -> Option<Instr>
    requires { IsIn half 1 4 }
    ensures found { IfSome result (Expands half) }
    ensures only { (instr : Instr) → Expands half instr → result ≡ Some instr }
    ensures in_range { IfSome result IsWellFormed }
{
    let rd = short_register(half, 7);
    match field(half, 10, 2) {
        0 => Some(Instr::Shift {
            op: ShiftOp::Srli,
            rd,
            rs1: rd,
            by: six_bits(half) as u8,
        }),
        1 => Some(Instr::Shift {
            op: ShiftOp::Srai,
            rd,
            rs1: rd,
            by: six_bits(half) as u8,
        }),
        2 => Some(Instr::Imm {
            op: ImmOp::Andi,
            rd,
            rs1: rd,
            imm: constant(half),
        }),
        _ => two_registers(half),
    }
}

fn two_registers(half: u16) -> Option<Instr>
    requires row { IsIn half 1 4 }
    requires register_form { bits_at half 10 2 ≡ 3 }
    ensures found { IfSome result (Expands half) }
    ensures only { (instr : Instr) → Expands half instr → result ≡ Some instr }
    ensures in_range { IfSome result IsWellFormed }
{
    let op = match (field(half, 12, 1), field(half, 5, 2)) {
        (0, 0) => RegOp::Sub,
        (0, 1) => RegOp::Xor,
        (0, 2) => RegOp::Or,
        (0, 3) => RegOp::And,
        (1, 0) => RegOp::Subw,
        (1, 1) => RegOp::Addw,
        _ => return None,
    };
    let rd = short_register(half, 7);
    Some(Instr::Reg {
        op,
        rd,
        rs1: rd,
        rs2: short_register(half, 2),
    })
}

// C.SLLI, loads and stores at the stack pointer, moves, sums, jumps to registers and EBREAK.
fn quadrant_2(half: u16) -> Option<Instr>
    requires { bits_at half 0 2 ≡ 2 }
    ensures found { IfSome result (Expands half) }
    ensures only { (instr : Instr) → Expands half instr → result ≡ Some instr }
    ensures in_range { IfSome result IsWellFormed }
{
    let (rd, rs2) = (rd(half), rs2(half));
    match funct3(half) {
        0 => Some(Instr::Shift {
            op: ShiftOp::Slli,
            rd,
            rs1: rd,
            by: six_bits(half) as u8,
        }),
        2 if rd != ZERO => Some(Instr::Load {
            op: LoadOp::Lw,
            rd,
            rs1: SP,
            imm: lwsp_bits(half) as i32,
        }),
        3 if rd != ZERO => Some(Instr::Load {
            op: LoadOp::Ld,
            rd,
            rs1: SP,
            imm: ldsp_bits(half) as i32,
        }),
        4 => move_or_jump(half),
        6 => Some(Instr::Store {
            op: StoreOp::Sw,
            rs1: SP,
            rs2,
            imm: swsp_bits(half) as i32,
        }),
        7 => Some(Instr::Store {
            op: StoreOp::Sd,
            rs1: SP,
            rs2,
            imm: sdsp_bits(half) as i32,
        }),
        _ => None,
    }
}

// C.JR, C.MV, C.EBREAK, C.JALR and C.ADD.
fn move_or_jump(half: u16) -> Option<Instr>
    requires { IsIn half 2 4 }
    ensures found { IfSome result (Expands half) }
    ensures only { (instr : Instr) → Expands half instr → result ≡ Some instr }
    ensures in_range { IfSome result IsWellFormed }
{
    let (rd, rs2) = (rd(half), rs2(half));
    let links = field(half, 12, 1) == 1;
    if rs2 != ZERO {
        Some(Instr::Reg {
            op: RegOp::Add,
            rd,
            rs1: if links { rd } else { ZERO },
            rs2,
        })
    } else if rd != ZERO {
        Some(Instr::Jalr {
            rd: if links { RA } else { ZERO },
            rs1: rd,
            imm: 0,
        })
    } else if links {
        Some(Instr::Ebreak)
    } else {
        None
    }
}
