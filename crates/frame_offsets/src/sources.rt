//! Where the offset of a register comes from.

ghost use Rattle.std.specs.Prelude.{◌≡◌, ◌<◌, IfSome};
ghost use Rattle.rv_decode.specs.Instructions.{IsWellFormed};
ghost use Rattle.frame_offsets.specs.Frames.{is_kept_by_calls, source_in, source_of, written_by};

use flow_points::Flow;
use rv_decode::{ImmOp, Instr};

const A0: u8 = 10;

/// The register whose offset a register has after an instruction with this flow, and the number that is
/// added to it; None where it has none.
pub fn source_of(instr: &Instr, flow: &Flow, register: u8) -> Option<(u8, i32)>
    requires instr { IsWellFormed instr.now }
    requires register { register < 32 }
    ensures source { result ≡ source_of instr.now flow.now register }
    ensures within { IfSome result (λ s. s.0 < 32) }
{
    match *flow {
        _ if register == 0 => None,
        Flow::Call { .. } if is_kept_by_calls(register) => Some((register, 0)),
        Flow::Call { .. } => None,
        _ => source_in(instr, register),
    }
}

// Whether a register is sp or one of s0 to s11, which a callee leaves as they were.
fn is_kept_by_calls(register: u8) -> bool
    ensures { result ≡ is_kept_by_calls register }
{
    matches!(register, 2 | 8 | 9) || (18 <= register && register <= 27)
}

fn source_in(instr: &Instr, register: u8) -> Option<(u8, i32)>
    requires instr { IsWellFormed instr.now }
    requires register { register < 32 }
    ensures source { result ≡ source_in instr.now register }
    ensures within { IfSome result (λ s. s.0 < 32) }
{
    match *instr {
        Instr::Imm {
            op: ImmOp::Addi,
            rd,
            rs1,
            imm,
        } if rd == register => Some((rs1, imm)),
        _ if written_by(instr) == Some(register) => None,
        _ => Some((register, 0)),
    }
}

// The register that an instruction writes.
fn written_by(instr: &Instr) -> Option<u8>
    ensures { result ≡ written_by instr.now }
{
    match *instr {
        Instr::Lui { rd, .. }
        | Instr::Auipc { rd, .. }
        | Instr::Jal { rd, .. }
        | Instr::Jalr { rd, .. }
        | Instr::Load { rd, .. }
        | Instr::Imm { rd, .. }
        | Instr::Shift { rd, .. }
        | Instr::Reg { rd, .. } => Some(rd),
        Instr::Ecall => Some(A0),
        Instr::Branch { .. } | Instr::Store { .. } | Instr::Fence { .. } | Instr::Ebreak => None,
    }
}
