//! What rows fix: the major opcodes, by the names of the ISA's opcode map, and the other fixed fields.

pub(crate) const LOAD: u32 = 0x03;

pub(crate) const MISC_MEM: u32 = 0x0f;

pub(crate) const OP_IMM: u32 = 0x13;

pub(crate) const AUIPC: u32 = 0x17;

pub(crate) const OP_IMM_32: u32 = 0x1b;

pub(crate) const STORE: u32 = 0x23;

pub(crate) const OP: u32 = 0x33;

pub(crate) const LUI: u32 = 0x37;

pub(crate) const OP_32: u32 = 0x3b;

pub(crate) const BRANCH: u32 = 0x63;

pub(crate) const JALR: u32 = 0x67;

pub(crate) const JAL: u32 = 0x6f;

pub(crate) const SYSTEM: u32 = 0x73;

// The whole words of layout I under SYSTEM.
pub(crate) const ECALL: u32 = 0x0000_0073;

pub(crate) const EBREAK: u32 = 0x0010_0073;

// The funct7 of layout R: of the base rows, of SUB and the arithmetic shifts, and of the extension M.
pub(crate) const BASE: u32 = 0x00;

pub(crate) const ALTERNATE: u32 = 0x20;

pub(crate) const MULDIV: u32 = 0x01;

/// What a row of layout I fixes.
#[derive(Clone, Copy)]
pub(crate) struct ImmRow {
    pub(crate) opcode: u32,
    pub(crate) funct3: u32,
}

/// What the row of a shift by a constant fixes: `width` is that of the shift in bits, and `above` are
/// the bits of the word above it.
#[derive(Clone, Copy)]
pub(crate) struct ShiftRow {
    pub(crate) opcode: u32,
    pub(crate) funct3: u32,
    pub(crate) width: u32,
    pub(crate) above: u32,
}

/// What a row of layout R fixes.
#[derive(Clone, Copy)]
pub(crate) struct RegRow {
    pub(crate) opcode: u32,
    pub(crate) funct3: u32,
    pub(crate) funct7: u32,
}
