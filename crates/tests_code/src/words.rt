//! What no row of the table has, and the names of registers.

use rv_decode::{Instr, ShiftOp, decode, encode, read_register, register_name, well_formed};

// Words just outside the rows.
const OUTSIDE: [u32; 20] = [
    0x00000000, // no bits
    0x00000001, // the low two bits of a compressed instruction
    0xffffffff, // an opcode that no row has
    0x00009067, // JALR with funct3 1
    0x0000a063, // a branch with funct3 2
    0x00007003, // a load with funct3 7
    0x00004023, // a store with funct3 4
    0x04051513, // SLLI by 64
    0x04055513, // SRLI by 64
    0x44055513, // SRAI by 64
    0x40051513, // SLLI with the bit of SRAI
    0x0205151b, // SLLIW by 32
    0x4205551b, // SRAIW by 32
    0x0005251b, // funct3 2 under OP-IMM-32
    0x40c59533, // SLL with the bit of SUB
    0x04c58533, // ADD with a funct7 that no row has
    0x02c5953b, // MULW's funct7 with funct3 1
    0x0000100f, // FENCE.I
    0x00200073, // a whole word beside EBREAK
    0x00100173, // EBREAK with a destination
];

fn none_is_decoded() -> bool {
    for word in OUTSIDE.iter() {
        if decode(*word).is_some() {
            return false;
        }
    }
    true
}

#[test]
fn outside(rt: HostRuntime) {
    assert!(rt; none_is_decoded());
}

const FENCE: Instr = Instr::Fence {
    rd: 0,
    rs1: 0,
    imm: -1997,
};

const WIDE_SHIFT: Instr = Instr::Shift {
    op: ShiftOp::Slliw,
    rd: 1,
    rs1: 1,
    by: 32,
};

#[test]
fn both_ways(rt: HostRuntime) {
    assert!(rt; decode(0x8330000f) == Some(FENCE) && well_formed(&FENCE));
    assert!(rt; encode(&FENCE) == 0x8330000f);
    assert!(rt; !well_formed(&WIDE_SHIFT));
}

/// Names of s0, and texts that name no register.
const NAMES: [&str; 3] = ["s0", "fp", "x8"];

const NO_NAMES: [&str; 7] = ["", "S0", "x08", "x32", "x", "s12", "zero "];

fn all_are_read_as(names: &[&str], register: Option<u8>) -> bool {
    for name in names {
        if read_register(name) != register {
            return false;
        }
    }
    true
}

#[test]
fn registers(rt: HostRuntime) {
    assert!(rt; register_name(8) == "s0");
    assert!(rt; all_are_read_as(&NAMES, Some(8)) && all_are_read_as(&NO_NAMES, None));
}
