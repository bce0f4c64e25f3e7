//! Loads and stores on the frame.

ghost use Rattle.std.specs.Prelude.{◌≡◌, ◌<◌, ◌≤◌, length, position, IfOk, IfSome};
ghost use Rattle.affine_lift.specs.Values.{IsHeldIn};
ghost use Rattle.affine_lift.specs.FrameSlots.{slot_offset, is_slot_at, loaded, width_of, size_of, is_byte_by, touches_by, is_touched_by, store_of, is_whole_by, stored_word_by, stored_in_by, stores_by};

use crate::registers::{assigned, multiple};
use crate::store::FrameStore;
use crate::value::Value;
use crate::width::Width;
use affine_prog::Assign;
use report_text::Name;
use rv_decode::{Instr, LoadOp, StoreOp};
use std::alloc::{AllocError, Global};

// The offset of the slot so many bytes below the stack pointer.
fn slot_offset(below: u16) -> u64
    ensures { result ≡ slot_offset below }
{
    u64::from(below).wrapping_neg()
}

fn is_slot_at(proc_entry: u64, offset: u64, name: &Name) -> bool
    ensures { result ≡ is_slot_at proc_entry offset name.now }
{
    match *name {
        Name::Register(_) => false,
        Name::Slot {
            proc_entry: owner,
            below,
        } => owner == proc_entry && offset == slot_offset(below),
    }
}

/// What a load gives, where its offset is this one.
pub fn loaded(names: &[Name], proc_entry: u64, op: LoadOp, access: Option<u64>) -> Value
    ensures value { result ≡ loaded names.now proc_entry op access }
    ensures held { IsHeldIn names.now result }
{
    match (op, access) {
        (LoadOp::Ld, Some(offset)) => match slot_at(names, proc_entry, offset) {
            Some(position) => Value::Held(position),
            None => Value::Unknown,
        },
        _ => Value::Unknown,
    }
}

// The position of the slot of a procedure at an offset, if it is tracked.
fn slot_at(names: &[Name], proc_entry: u64, offset: u64) -> Option<usize>
    ensures position { result ≡ position (is_slot_at proc_entry offset) names.now }
    ensures within { IfSome result (λ k. k < length names.now) }
{
    names
        .iter()
        .position(|name| is_slot_at(proc_entry, offset, name))
}

fn width_of(op: StoreOp) -> u64
    ensures { result ≡ width_of op }
{
    match op {
        StoreOp::Sb => 1,
        StoreOp::Sh => 2,
        StoreOp::Sw => 4,
        StoreOp::Sd => 8,
    }
}

// How many bytes a slot has.
fn size_of(width: Width) -> u64
    ensures { result ≡ size_of width }
{
    match width {
        Width::Wide => 8,
        Width::Narrow => 4,
    }
}

fn is_byte_of(width: Width, below: u16, offset: u64) -> bool
    ensures { result ≡ is_byte_by width below offset }
{
    offset.wrapping_add(u64::from(below)) < size_of(width)
}

fn touches(width: Width, count: u64, offset: u64, below: u16) -> bool
    ensures { result ≡ touches_by width count offset below }
{
    (0..count).any(|i| is_byte_of(width, below, offset.wrapping_add(i)))
}

/// The store of an instruction, where its offset is this one.
pub fn store_of(instr: &Instr, access: Option<u64>) -> Option<FrameStore>
    ensures { result ≡ store_of instr.now access }
{
    match (*instr, access) {
        (Instr::Store { op, rs2, .. }, Some(offset)) => Some(FrameStore {
            op,
            offset,
            register: rs2,
        }),
        _ => None,
    }
}

// Whether a store at a slot's offset sets its word.
fn is_whole(width: Width, op: StoreOp) -> bool
    ensures { result ≡ is_whole_by width op }
{
    matches!((width, op), (_, StoreOp::Sd) | (Width::Narrow, StoreOp::Sw))
}

// What a store gives to a slot that it touches.
fn stored_word(width: Width, names: &[Name], store: FrameStore, place: usize, below: u16) -> Assign
    requires few { length names.now ≤ 16 }
    requires place { place < 16 }
    ensures { result ≡ stored_word_by width names.now store place below }
{
    if is_whole(width, store.op) && store.offset == slot_offset(below) {
        assigned(names, place, multiple(1, store.register))
    } else {
        Assign::Any(place as u8)
    }
}

/// The assignment that a store makes to the name at a position, if that is a slot which it touches.
pub fn stored_in(
    width: Width,
    names: &[Name],
    proc_entry: u64,
    store: FrameStore,
    place: usize,
    name: Name,
) -> Option<Assign>
    requires few { length names.now ≤ 16 }
    requires place { place < 16 }
    ensures { result ≡ stored_in_by width names.now proc_entry store place name }
{
    match name {
        Name::Slot { below, .. } if is_touched(width, proc_entry, store, &name) => {
            Some(stored_word(width, names, store, place, below))
        }
        _ => None,
    }
}

/// Whether the name is a slot of the procedure that the store touches.
pub fn is_touched(width: Width, proc_entry: u64, store: FrameStore, name: &Name) -> bool
    ensures { result ≡ is_touched_by width proc_entry store name.now }
{
    match *name {
        Name::Register(_) => false,
        Name::Slot {
            proc_entry: owner,
            below,
        } => owner == proc_entry && touches(width, width_of(store.op), store.offset, below),
    }
}

/// The assignments of a store, in the order of the positions.
pub fn stores_of(
    alloc: Global,
    width: Width,
    names: &[Name],
    proc_entry: u64,
    store: FrameStore,
) -> Result<Vec<Assign>, AllocError>
    requires { length names.now ≤ 16 }
    ensures { IfOk result (λ assigns. assigns.items ≡ stores_by width names.now proc_entry store) }
{
    names
        .iter()
        .enumerate()
        .filter_map(|(place, name)| stored_in(width, names, proc_entry, store, place, *name))
        .collect(alloc)
}
