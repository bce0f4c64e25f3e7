//! What is known of an opaque instruction.

/// The register that may change, 0 if none; the bytes that may, as many as `width` from the address
/// `x[base] + imm` on; the instruction's length; and whether it makes no step.
#[derive(Clone, Copy, Debug, PartialEq, Eq)]
pub struct Row {
    pub rd: u8,
    pub base: u8,
    pub imm: i32,
    pub width: u8,
    pub length: u8,
    pub halts: bool,
}
