//! The assignments that an instruction makes.

ghost use Rattle.std.specs.Prelude.{◌≡◌, ◌≤◌, ◌<◌, [], ◌∷◌, Some, length, slice_get, IfOk, IfSome, IsSomeAnd, MatchOption};
ghost use Rattle.rv_decode.specs.Instructions.{IsWellFormed};
ghost use Rattle.frame_offsets.specs.Frames.{AreOffsetsOf, offset_at};
ghost use Rattle.affine_lift.specs.Values.{IsHeldIn};
ghost use Rattle.affine_lift.specs.FrameSlots.{base_of, access_of};
ghost use Rattle.flow_points.specs.Flows.{plus};
ghost use Rattle.affine_lift.specs.Effects.{effect_at_by, effect_by, load_in, imm_in, shift_in, reg_in, instr_in, register_effect, result_in};

use crate::frame::{loaded, store_of, stores_of};
use crate::registers::{
    assigned, constant, imm_value, link_value, place_of, reg_value, shift_value, upper,
};
use crate::value::Value;
use crate::width::Width;
use affine_prog::Assign;
use flow_points::{CodePoint, Points};
use frame_offsets::Offsets;
use report_text::Name;
use rv_decode::{ImmOp, Instr, LoadOp, RegOp, ShiftOp};
use sqlite_items::Items;
use std::alloc::{AllocError, Global};

// The register that ECALL sets.
const A0: u8 = 10;

/// The assignments at a point, to words or to their low 32 bits.
pub fn effect_of(
    alloc: Global,
    width: Width,
    points: &Points,
    offsets: &Offsets,
    names: &[Name],
    i: u32,
) -> Result<Items<Assign>, AllocError>
    requires few { length names.now ≤ 16 }
    requires point { i < length points.now.points }
    requires offsets { AreOffsetsOf points.now offsets.now }
    ensures { IfOk result (λ assigns. IsSomeAnd (slice_get points.now.points i) (λ c.
        assigns ≡ effect_by width names.now c (offset_at offsets.now i))) }
{
    let access = access_of(points, offsets, i);
    effect_at(alloc, width, names, &code_at(points, i), access)
}

/// The code of the point of this number.
pub fn code_at(points: &Points, i: u32) -> CodePoint
    requires { i < length points.now.points }
    ensures code { slice_get points.now.points i ≡ Some result }
    ensures instr { IsWellFormed result.instr }
{
    points.known();
    points.code(i)
}

/// The offset of the first byte that a load or a store goes to, where its base register has one.
pub fn access_of(points: &Points, offsets: &Offsets, i: u32) -> Option<u64>
    requires point { i < length points.now.points }
    requires offsets { AreOffsetsOf points.now offsets.now }
    ensures { IsSomeAnd (slice_get points.now.points i) (λ c. result ≡ access_of c.instr (offset_at offsets.now i)) }
{
    let code = code_at(points, i);
    let (base, imm) = base_of(&code.instr)?;
    let offset = offset_of(points, offsets, i, base)?;
    Some(plus(offset, imm))
}

// The offset of a register, as a word.
fn offset_of(points: &Points, offsets: &Offsets, i: u32, register: u8) -> Option<u64>
    requires point { i < length points.now.points }
    requires register { register < 32 }
    requires offsets { AreOffsetsOf points.now offsets.now }
    ensures { result ≡ offset_at offsets.now i register }
{
    points.known();
    match offsets.at(i, register) {
        Some(offset) => Some(offset.cast_unsigned()),
        None => None,
    }
}

// The base register of a load or a store, and what is added to it.
fn base_of(instr: &Instr) -> Option<(u8, i32)>
    requires { IsWellFormed instr.now }
    ensures base { result ≡ base_of instr.now }
    ensures within { IfSome result (λ b. b.0 < 32) }
{
    match *instr {
        Instr::Load { rs1, imm, .. } | Instr::Store { rs1, imm, .. } => Some((rs1, imm)),
        _ => None,
    }
}

fn plus(offset: u64, imm: i32) -> u64
    ensures { result ≡ plus offset imm }
{
    offset.wrapping_add(i64::from(imm).cast_unsigned())
}

fn effect_at(
    alloc: Global,
    width: Width,
    names: &[Name],
    code: &CodePoint,
    access: Option<u64>,
) -> Result<Items<Assign>, AllocError>
    requires few { length names.now ≤ 16 }
    requires instr { IsWellFormed code.now.instr }
    ensures { IfOk result (λ assigns. assigns ≡ effect_at_by width names.now code.now access) }
{
    let mut assigns = Items::new(alloc);
    if let Some(assign) = register_effect(names, result_of(width, names, code, access)) {
        assigns.push(assign)?;
    }
    if let Some(store) = store_of(&code.instr, access) {
        let stores = stores_of(alloc, width, names, code.point.proc_entry, store)?;
        assigns.append(Items::from_vec(stores))?;
    }
    Ok(assigns)
}

fn register_effect(names: &[Name], written: Option<(u8, Value)>) -> Option<Assign>
    requires few { length names.now ≤ 16 }
    requires held { IfSome written (λ r. IsHeldIn names.now r.1) }
    ensures { MatchOption result (register_effect names.now written ≡ []) (λ assign. register_effect names.now written ≡ assign ∷ []) }
{
    let (register, value) = written?;
    let place = place_of(names, register)?;
    Some(assigned(names, place, value))
}

// The operation on words that gives the value of a load.
fn load_in(width: Width, op: LoadOp) -> LoadOp
    ensures { result ≡ load_in width op }
{
    match (width, op) {
        (Width::Narrow, LoadOp::Lw | LoadOp::Lwu) => LoadOp::Ld,
        _ => op,
    }
}

// The operation on words that gives the value of an operation with an immediate.
fn imm_in(width: Width, op: ImmOp) -> ImmOp
    ensures { result ≡ imm_in width op }
{
    match (width, op) {
        (Width::Narrow, ImmOp::Addiw) => ImmOp::Addi,
        _ => op,
    }
}

// The operation on words that gives the value of a shift.
fn shift_in(width: Width, op: ShiftOp) -> ShiftOp
    ensures { result ≡ shift_in width op }
{
    match (width, op) {
        (Width::Narrow, ShiftOp::Slliw) => ShiftOp::Slli,
        _ => op,
    }
}

// The operation on words that gives the value of an operation of two registers.
fn reg_in(width: Width, op: RegOp) -> RegOp
    ensures { result ≡ reg_in width op }
{
    match (width, op) {
        (Width::Narrow, RegOp::Addw) => RegOp::Add,
        (Width::Narrow, RegOp::Subw) => RegOp::Sub,
        (Width::Narrow, RegOp::Mulw) => RegOp::Mul,
        _ => op,
    }
}

// The register that the instruction writes, and its value.
fn result_of(
    width: Width,
    names: &[Name],
    code: &CodePoint,
    access: Option<u64>,
) -> Option<(u8, Value)>
    requires { IsWellFormed code.now.instr }
    ensures written { result ≡ result_in names.now code.now access (instr_in width code.now.instr) }
    ensures held { IfSome result (λ r. IsHeldIn names.now r.1) }
{
    match code.instr {
        Instr::Lui { rd, imm } => Some((rd, constant(upper(imm)))),
        Instr::Auipc { rd, imm } => Some((
            rd,
            constant(code.point.address.wrapping_add(upper(imm))),
        )),
        Instr::Jal { rd, .. } | Instr::Jalr { rd, .. } => Some((rd, link_value(code.flow))),
        Instr::Load { op, rd, .. } => {
            let entry = code.point.proc_entry;
            Some((rd, loaded(names, entry, load_in(width, op), access)))
        }
        Instr::Imm { op, rd, rs1, imm } => Some((rd, imm_value(imm_in(width, op), rs1, imm))),
        Instr::Shift { op, rd, rs1, by } => Some((rd, shift_value(shift_in(width, op), rs1, by))),
        Instr::Reg { op, rd, rs1, rs2 } => Some((rd, reg_value(reg_in(width, op), rs1, rs2))),
        Instr::Ecall => Some((A0, Value::Unknown)),
        Instr::Branch { .. } | Instr::Store { .. } | Instr::Fence { .. } | Instr::Ebreak => None,
    }
}
