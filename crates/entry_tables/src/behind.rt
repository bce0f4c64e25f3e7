//! The state behind a call.

ghost use Rattle.std.specs.Prelude.{◌≡◌, ℕ, ◌<◌, ◌^◌, ◌==◌, nat_le, not, ◌&&◌, ◌++◌, ◌∷◌, [], false, length, get_or, IfOk, OnOk, if◌then◌else◌};
ghost use Rattle.entry_values.specs.declared.values.Value.TheVariants.{Is};
ghost use Rattle.entry_tables.specs.Tables.{kept_slots, not_below, value_returned, returned, foreign};
ghost use Rattle.entry_tables.specs.Settling.{listed};
ghost use Rattle.entry_tables.specs.Behind.{state_returned, values_returned};

use entry_values::{Kind, Memory, Slot, State, Value, push, value_at};
use sqlite_items::Items;
use std::alloc::Global;

/// The state behind a call from a, where the callee keeps these registers.
pub fn returned(
    alloc: Global,
    keeps: [bool; 32],
    s: &State,
    a: u64,
    next: u64,
) -> Result<State, Memory>
    ensures { IfOk result (λ t. t ≡ state_returned keeps s.now a next) }
{
    let values = values_returned(&keeps, s, a, next);
    let slots = kept_slots(alloc, value_at(s, 2), s.slots.as_slice())?;
    Ok(State { values, slots })
}

fn value_returned(keeps: &[bool; 32], s: &State, a: u64, next: u64, r: u8) -> Value
    requires { r < 32 }
    ensures { result ≡ value_returned (listed keeps.now) s.now a next r }
{
    if r == 0 {
        Value::Is(0, 0)
    } else if keeps[usize::from(r)] {
        if r == 1 {
            Value::Is(0, next)
        } else {
            value_at(s, r)
        }
    } else {
        Value::Any(a, Kind::Callee)
    }
}

fn values_returned(keeps: &[bool; 32], s: &State, a: u64, next: u64) -> [Value; 32]
    ensures { result ≡ values_returned keeps.now s.now a next }
{
    let mut values = [Value::Is(0, 0); 32];
    for r in 0..32u8 {
        values[usize::from(r)] = value_returned(keeps, s, a, next, r);
    }
    values
}

fn kept_slots(alloc: Global, v: Value, slots: &[Slot]) -> Result<Items<Slot>, Memory>
    ensures { IfOk result (λ t. t ≡ kept_slots v slots.now) }
{
    match v {
        Value::Is(2, k) => not_below(alloc, k, slots),
        _ => match Items::from_slice(alloc, slots) {
            Ok(slots) => Ok(slots),
            Err(_) => Err(Memory),
        },
    }
}

fn not_below(alloc: Global, k: u64, slots: &[Slot]) -> Result<Items<Slot>, Memory>
    ensures { IfOk result (λ t. t ≡ not_below k slots.now) }
{
    let mut after = Items::new(alloc);
    for slot in slots {
        push_if(&mut after, k, *slot)?;
    }
    Ok(after)
}

fn push_if(slots: &mut Items<Slot>, k: u64, slot: Slot) -> Result<(), Memory>
    ensures { OnOk result (slots.new ≡ (if nat_le (2 ^ 63) k && nat_le k slot.offset then slots.old ++ slot ∷ [] else slots.old)) }
{
    if k >= 1 << 63 && k <= slot.offset {
        push(slots, slot)
    } else {
        Ok(())
    }
}
