//! Slots behind a store.

ghost use Rattle.std.specs.Prelude.{◌≡◌, ◌<◌, ◌^◌, ◌++◌, ◌∷◌, [], if◌then◌else◌, ◌||◌, ◌&&◌, true, IfOk, OnOk, IsTrue};
ghost use Rattle.rv_step.specs.Effects.{distance};
ghost use Rattle.entry_values.specs.Transfers.{overlaps, is_below, slot_at, cleared, blurred, is_known, slots_behind};
ghost use Rattle.entry_values.specs.Checks.{AreIn};
ghost use Rattle.entry_values.specs.States.{HasSlot};
ghost use Rattle.entry_values.specs.declared.values.Value.TheVariants.{Is, Any};
ghost use Rattle.entry_values.specs.declared.values.Kind.TheVariants.{Overwritten};

use crate::Memory;
use crate::states::Slot;
use crate::values::{Kind, Value};
use sqlite_items::Items;
use std::alloc::Global;

fn distance(a: u64, b: u64) -> u64
    ensures { result ≡ distance a b }
{
    b.wrapping_sub(a)
}

pub(crate) fn overlaps(w: u64, o: u64, p: u64) -> bool
    ensures { result ≡ overlaps w o p }
{
    distance(o, p) < w || distance(p, o) < 8
}

/// Bytes of this width, less than 2^63, at an offset lie below the entry's sp.
pub fn is_below(o: u64, w: u64) -> bool
    requires { w < 2 ^ 63 }
    ensures { result ≡ is_below o w }
{
    o >= 1 << 63 && o - (1 << 63) <= (1 << 63) - w
}

pub(crate) fn is_known(v: Value) -> bool
    ensures { result ≡ is_known v }
{
    match v {
        Value::Is(_, _) => true,
        Value::Any(_, _) => false,
    }
}

pub(crate) fn slot_at(slots: &[Slot], o: u64) -> Option<Value>
    ensures { result ≡ slot_at slots.now o }
{
    for slot in slots {
        if slot.offset == o {
            return Some(slot.value);
        }
    }
    None
}

pub(crate) fn slots_behind(
    alloc: Global,
    pc: u64,
    w: u64,
    o: u64,
    v: Value,
    slots: &[Slot],
) -> Result<Items<Slot>, Memory>
    ensures { IfOk result (λ after. after ≡ slots_behind pc w o v slots.now) }
{
    if w == 8 && is_below(o, 8) && is_known(v) {
        cleared(
            alloc,
            w,
            Slot {
                offset: o,
                value: v,
            },
            slots,
        )
    } else {
        blurred(alloc, pc, w, o, slots)
    }
}

// The slot, and the slots that don't overlap w bytes at its offset.
fn cleared(alloc: Global, w: u64, stored: Slot, slots: &[Slot]) -> Result<Items<Slot>, Memory>
    ensures { IfOk result (λ after. after ≡ stored ∷ cleared w stored.offset slots.now) }
{
    let mut after = Items::new(alloc);
    push(&mut after, stored)?;
    for slot in slots {
        if !overlaps(w, stored.offset, slot.offset) {
            push(&mut after, *slot)?;
        }
    }
    Ok(after)
}

pub(crate) fn blurred(
    alloc: Global,
    pc: u64,
    w: u64,
    o: u64,
    slots: &[Slot],
) -> Result<Items<Slot>, Memory>
    ensures { IfOk result (λ after. after ≡ blurred pc w o slots.now) }
{
    let mut after = Items::new(alloc);
    for slot in slots {
        push(&mut after, blurred_slot(pc, w, o, *slot))?;
    }
    Ok(after)
}

fn blurred_slot(pc: u64, w: u64, o: u64, slot: Slot) -> Slot
    ensures { result ≡ (if overlaps w o slot.offset then record { offset = slot.offset; value = Any pc Overwritten } else slot) }
{
    if overlaps(w, o, slot.offset) {
        Slot {
            offset: slot.offset,
            value: Value::Any(pc, Kind::Overwritten),
        }
    } else {
        slot
    }
}

/// The slots, and one more.
pub fn push(slots: &mut Items<Slot>, slot: Slot) -> Result<(), Memory>
    ensures { OnOk result (slots.new ≡ slots.old ++ slot ∷ []) }
{
    match slots.push(slot) {
        Ok(()) => Ok(()),
        Err(_) => Err(Memory),
    }
}

/// Each slot of `slots` that claims something is one of `all`.
pub fn same_slots(slots: &[Slot], all: &[Slot]) -> bool
    ensures { IsTrue result → AreIn slots.now all.now }
{
    for slot in slots {
        if !is_kept(*slot, all) {
            return false;
        }
    }
    true
}

// The slot claims nothing, or is one of them.
fn is_kept(slot: Slot, all: &[Slot]) -> bool
    ensures { IsTrue result → is_known slot.value ≡ true → HasSlot all.now slot.offset slot.value }
{
    match slot.value {
        Value::Is(b, k) => has(all, slot.offset, b, k),
        Value::Any(_, _) => true,
    }
}

fn has(all: &[Slot], o: u64, b: u8, k: u64) -> bool
    ensures { IsTrue result → HasSlot all.now o (Is b k) }
{
    for slot in all {
        if is_slot(*slot, o, b, k) {
            return true;
        }
    }
    false
}

fn is_slot(slot: Slot, o: u64, b: u8, k: u64) -> bool
    ensures { IsTrue result → (slot.offset ≡ o) × (slot.value ≡ Is b k) }
{
    match slot.value {
        Value::Is(c, l) => slot.offset == o && c == b && l == k,
        Value::Any(_, _) => false,
    }
}
