//! What an opaque instruction makes of a state.

ghost use Rattle.std.specs.Prelude.{◌≡◌, ◌<◌, IfOk};
ghost use Rattle.entry_values.specs.Opaque.{blurred_state, opaque_state};

use crate::Memory;
use crate::slots::blurred;
use crate::states::State;
use crate::transfers::{copied, plus, put, value_at};
use crate::values::{Kind, Value};
use opaque_words::Row;
use std::alloc::Global;

/// The state behind the opaque instruction at pc.
pub fn opaque_state(alloc: Global, row: Row, pc: u64, s: &State) -> Result<State, Memory>
    requires rd { row.rd < 32 }
    requires base { row.base < 32 }
    ensures { IfOk result (λ t. t ≡ opaque_state row pc s.now) }
{
    let at = plus(value_at(s, row.base), row.imm);
    let after = blurred_state(alloc, pc, u64::from(row.width), at, s)?;
    put(alloc, &after, row.rd, Value::Any(pc, Kind::Opaque))
}

fn blurred_state(alloc: Global, pc: u64, width: u64, at: Value, s: &State) -> Result<State, Memory>
    ensures { IfOk result (λ t. t ≡ blurred_state pc width at s.now) }
{
    match at {
        Value::Is(2, o) => {
            let slots = blurred(alloc, pc, width, o, s.slots.as_slice())?;
            Ok(State {
                values: s.values,
                slots,
            })
        }
        _ => copied(alloc, s),
    }
}
