//! Where a run goes from a point, as far as the state there tells.

ghost use Rattle.std.specs.Prelude.{◌≡◌, ◌<◌, ◌∷◌, [], Option, IfOk};
ghost use Rattle.rv_decode.specs.Instructions.{IsWellFormed};
ghost use Rattle.entry_values.specs.Flows.{is_entry, linked, known_jump, tail_flow, jump_out, unresolved, jump_flow, flow_under};

use crate::Memory;
use crate::flow::Flow;
use crate::states::State;
use crate::transfers::{copied, even, plus, put, state_behind, value_at};
use crate::values::Value;
use rv_decode::Instr;
use sqlite_items::Items;
use std::alloc::Global;

/// The flow of an instruction at pc, where `next` is the address behind it, and `guess` the targets that are
/// taken for a jump there.
pub fn flow_under(
    alloc: Global,
    instr: Instr,
    guess: Option<Items<u64>>,
    pc: u64,
    next: u64,
    s: &State,
) -> Result<Flow, Memory>
    requires { IsWellFormed instr }
    ensures { IfOk result (λ f. f ≡ flow_under instr guess pc next s.now) }
{
    match instr {
        Instr::Jal { rd, off } => linked(alloc, rd, rv_step::plus(pc, off), next, s),
        Instr::Jalr { rd, rs1, imm } => {
            jump_flow(
                alloc,
                rd,
                rs1,
                imm,
                guess,
                next,
                s,
                plus(value_at(s, rs1), imm),
            )
        }
        Instr::Branch { off, .. } => {
            let targets = two(alloc, next, rv_step::plus(pc, off))?;
            Ok(Flow::On(targets, copied(alloc, s)?))
        }
        Instr::Ebreak => Ok(Flow::Halt),
        _ => {
            let targets = one(alloc, next)?;
            Ok(Flow::On(targets, state_behind(alloc, instr, pc, next, s)?))
        }
    }
}

fn one(alloc: Global, a: u64) -> Result<Items<u64>, Memory>
    ensures { IfOk result (λ t. t ≡ a ∷ []) }
{
    let mut all = Items::new(alloc);
    match all.push(a) {
        Ok(()) => Ok(all),
        Err(_) => Err(Memory),
    }
}

fn two(alloc: Global, a: u64, b: u64) -> Result<Items<u64>, Memory>
    ensures { IfOk result (λ t. t ≡ a ∷ b ∷ []) }
{
    let mut all = one(alloc, a)?;
    match all.push(b) {
        Ok(()) => Ok(all),
        Err(_) => Err(Memory),
    }
}

fn is_entry(r: u8, v: Value) -> bool
    ensures { result ≡ is_entry r v }
{
    match v {
        Value::Is(b, k) => b == r && k == 0,
        Value::Any(_, _) => false,
    }
}

fn linked(alloc: Global, rd: u8, target: u64, next: u64, s: &State) -> Result<Flow, Memory>
    requires { rd < 32 }
    ensures { IfOk result (λ f. f ≡ linked rd target next s.now) }
{
    if rd == 1 {
        Ok(Flow::CallTo(target, next))
    } else {
        let targets = one(alloc, target)?;
        Ok(Flow::On(targets, put(alloc, s, rd, Value::Is(0, next))?))
    }
}

fn known_jump(
    alloc: Global,
    rd: u8,
    rs1: u8,
    imm: i32,
    target: u64,
    next: u64,
    s: &State,
) -> Result<Flow, Memory>
    requires { rd < 32 }
    ensures { IfOk result (λ f. f ≡ known_jump rd rs1 imm target next s.now) }
{
    if rd == 0 && rs1 == 1 && imm == 0 {
        Ok(Flow::Leave)
    } else {
        linked(alloc, rd, target, next, s)
    }
}

fn tail_flow(v: Value, s: &State) -> Flow
    ensures { result ≡ tail_flow v s.now }
{
    if is_entry(5, v) {
        Flow::Stuck
    } else if is_entry(2, value_at(s, 2)) && is_entry(1, value_at(s, 1)) {
        Flow::TailOut
    } else {
        Flow::Stuck
    }
}

fn jump_out(guess: Option<Items<u64>>, s: &State, v: Value) -> Flow
    ensures { result ≡ jump_out guess s.now v }
{
    match guess {
        Some(targets) => Flow::ByTable(targets),
        None => tail_flow(v, s),
    }
}

fn unresolved(
    rd: u8,
    rs1: u8,
    imm: i32,
    guess: Option<Items<u64>>,
    next: u64,
    s: &State,
    v: Value,
) -> Flow
    ensures { result ≡ unresolved rd rs1 imm guess next s.now v }
{
    if rd == 0 {
        if rs1 == 1 && imm == 0 {
            Flow::Leave
        } else {
            jump_out(guess, s, v)
        }
    } else if rd == 1 || rd == 5 {
        Flow::Foreign(next)
    } else {
        Flow::Stuck
    }
}

fn jump_flow(
    alloc: Global,
    rd: u8,
    rs1: u8,
    imm: i32,
    guess: Option<Items<u64>>,
    next: u64,
    s: &State,
    v: Value,
) -> Result<Flow, Memory>
    requires { rd < 32 }
    ensures { IfOk result (λ f. f ≡ jump_flow rd rs1 imm guess next s.now v) }
{
    match v {
        Value::Is(0, k) => known_jump(alloc, rd, rs1, imm, even(k), next, s),
        Value::Is(1, 0) if rd == 0 => Ok(Flow::Return),
        _ => Ok(unresolved(rd, rs1, imm, guess, next, s, v)),
    }
}
