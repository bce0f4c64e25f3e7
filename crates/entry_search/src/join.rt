//! What two states have in common.

ghost use Rattle.std.specs.Prelude.{◌≡◌};
ghost use Rattle.entry_search.specs.Joins.{joined_value};

use entry_values::{Kind, Memory, Slot, State, Value, push};
use sqlite_items::Items;
use std::alloc::Global;

fn joined_value(v: Value, w: Value, here: u64) -> Value
    ensures { result ≡ joined_value v w here }
{
    match (v, w) {
        (Value::Any(_, _), _) => v,
        (Value::Is(b, k), Value::Is(c, l)) if b == c && k == l => v,
        _ => Value::Any(here, Kind::Joined),
    }
}

fn is_known(v: Value) -> bool {
    match v {
        Value::Is(_, _) => true,
        Value::Any(_, _) => false,
    }
}

// What is said of the slot at an offset.
fn said(slots: &[Slot], offset: u64) -> Option<Value> {
    for slot in slots {
        if slot.offset == offset {
            return Some(slot.value);
        }
    }
    None
}

// Both values, and whether the first one is no longer known.
fn joined_values(s: &[Value; 32], u: &[Value; 32], here: u64) -> ([Value; 32], bool) {
    let mut values = *s;
    let mut lost = false;
    for r in 0..32usize {
        let value = joined_value(s[r], u[r], here);
        lost = lost || is_known(s[r]) && !is_known(value);
        values[r] = value;
    }
    (values, lost)
}

/// The slots of the first list of which both lists say the same, and those of which nothing is claimed.
fn joined_slots(
    alloc: Global,
    s: &[Slot],
    u: &[Slot],
    here: u64,
) -> Result<(Items<Slot>, bool), Memory> {
    let mut slots = Items::new(alloc);
    let mut lost = false;
    for slot in s {
        match said(u, slot.offset) {
            Some(value) => {
                let value = joined_value(slot.value, value, here);
                lost = lost || is_known(slot.value) && !is_known(value);
                push(
                    &mut slots,
                    Slot {
                        offset: slot.offset,
                        value,
                    },
                )?;
            }
            None if is_known(slot.value) => lost = true,
            None => push(&mut slots, *slot)?,
        }
    }
    Ok((slots, lost))
}

/// What both states claim, if it is less than the first one does.
pub(crate) fn joined(
    alloc: Global,
    s: &State,
    u: &State,
    here: u64,
) -> Result<Option<State>, Memory> {
    let (values, lost_values) = joined_values(&s.values, &u.values, here);
    let (slots, lost_slots) = joined_slots(alloc, s.slots.as_slice(), u.slots.as_slice(), here)?;
    if lost_values || lost_slots {
        Ok(Some(State { values, slots }))
    } else {
        Ok(None)
    }
}

/// The state with its first slots alone, as many as the limit.
pub(crate) fn cut(alloc: Global, s: &State, limit: usize) -> Result<State, Memory> {
    let all = s.slots.as_slice();
    let kept = if limit < all.len() {
        &all[..limit]
    } else {
        all
    };
    match Items::from_slice(alloc, kept) {
        Ok(slots) => Ok(State {
            values: s.values,
            slots,
        }),
        Err(_) => Err(Memory),
    }
}
