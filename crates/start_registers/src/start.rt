//! The registers with which a run starts, where a text of them may be left out.

ghost use Rattle.std.specs.Prelude.{option_map, IfOk};
ghost use Rattle.start_registers.specs.Settings.{IsStart};

use crate::list::read_registers;
use std::alloc::{AllocError, Global};

/// The registers of the text, where it is a list of registers; or all 0 without a text.
pub fn start_of(alloc: Global, regs: Option<&str>) -> Result<Option<[u64; 32]>, AllocError>
    ensures { IfOk result (IsStart (option_map (λ r. r.now) regs.entry)) }
{
    match regs {
        Some(text) => read_registers(alloc, text),
        None => Ok(Some([0; 32])),
    }
}
