//! The flow of one instruction.

ghost use Rattle.std.specs.Prelude.{◌≡◌, ◌<◌};
ghost use Rattle.flow_points.specs.Flows.{aligned, base_of, flow_of, indirect, linked, next, pair_target, plus, prior};

use crate::code_points::Flow;
use refusals::FlowRefusal;
use rv_decode::Instr;

const ZERO: u8 = 0;

const RA: u8 = 1;

/// The flow of an instruction, or what is bad in it. The instruction behind it stands at `next`. `upper` is
/// the field of the AUIPC before it, where the two are a pair.
pub fn flow_of(
    unit: u8,
    address: u64,
    next: u64,
    upper: Option<u32>,
    instr: &Instr,
) -> Result<Flow, FlowRefusal>
    requires { 0 < unit }
    ensures { result ≡ flow_of unit address next upper instr.now }
{
    match *instr {
        Instr::Jal { rd, off } => linked(unit, address, next, rd, plus(address, off)),
        Instr::Branch { off, .. } => {
            let target = plus(address, off);
            aligned(unit, address, target, Flow::Branch { next, target })
        }
        Instr::Jalr { rd, rs1, imm } => match upper {
            Some(upper) => {
                let target = pair_target(address, upper, imm);
                linked(unit, address, next, rd, target)
            }
            None => indirect(address, rd, rs1, imm),
        },
        Instr::Ebreak => Ok(Flow::Halt),
        _ => Ok(Flow::Next(next)),
    }
}

/// The register whose address the instruction jumps to; zero for one that jumps to no register.
pub fn base_of(instr: &Instr) -> u8
    ensures { result ≡ base_of instr.now }
{
    match *instr {
        Instr::Jalr { rs1, .. } => rs1,
        _ => ZERO,
    }
}

/// The address four bytes before this one.
pub fn prior(address: u64) -> u64
    ensures { result ≡ prior address }
{
    address.wrapping_sub(4)
}

/// The address of the instruction behind one of this length.
pub fn next(address: u64, length: u8) -> u64
    ensures { result ≡ next address length }
{
    address.wrapping_add(u64::from(length))
}

fn plus(address: u64, off: i32) -> u64
    ensures { result ≡ plus address off }
{
    address.wrapping_add_signed(i64::from(off))
}

// A pair's second half stands right behind its AUIPC.
fn pair_target(address: u64, upper: u32, imm: i32) -> u64
    ensures { result ≡ pair_target address upper imm }
{
    let sum = plus(
        plus(prior(address), upper.wrapping_mul(0x1000).cast_signed()),
        imm,
    );
    sum - sum % 2
}

// A jump or a call, by the register that it links through.
fn linked(unit: u8, address: u64, next: u64, rd: u8, target: u64) -> Result<Flow, FlowRefusal>
    requires { 0 < unit }
    ensures { result ≡ linked unit address next rd target }
{
    match rd {
        ZERO => aligned(unit, address, target, Flow::Jump(target)),
        RA => aligned(unit, address, target, Flow::Call { target, next }),
        _ => Err(FlowRefusal::OddLink(address, rd)),
    }
}

fn aligned(unit: u8, address: u64, target: u64, flow: Flow) -> Result<Flow, FlowRefusal>
    requires { 0 < unit }
    ensures { result ≡ aligned unit address target flow }
{
    if target % u64::from(unit) == 0 {
        Ok(flow)
    } else {
        Err(FlowRefusal::MisalignedTarget(address, target))
    }
}

// A jump to a register's address that is no second half of a pair.
fn indirect(address: u64, rd: u8, rs1: u8, imm: i32) -> Result<Flow, FlowRefusal>
    ensures { result ≡ indirect address rd rs1 imm }
{
    match (rd, rs1, imm) {
        (ZERO, RA, 0) => Ok(Flow::Return),
        (ZERO | RA, _, _) => Err(FlowRefusal::IndirectJump(address, rs1)),
        _ => Err(FlowRefusal::OddLink(address, rd)),
    }
}
