//! The flow at an address.

ghost use Rattle.std.specs.Prelude.{◌≡◌, ◌<◌, Some, is_some, IfSome, IfOk};
ghost use Rattle.rv_decode.specs.Instructions.{IsWellFormed};
ghost use Rattle.elf_image.specs.Images.{code_at};
ghost use Rattle.entry_tables.specs.Tables.{flow_by, opaque_flow};
ghost use Rattle.entry_tables.specs.Settling.{guess_at, opaque_at};

use crate::lookups::guess_at;
use crate::places::{has_code, opaque_at};
use crate::rows::{Guess, Line};
use elf_image::Image;
use entry_values::{Flow, Memory, State, flow_under, opaque_state};
use opaque_words::Row;
use std::alloc::Global;

/// The flow of what stands at an address, under a state.
pub fn flow_at(
    alloc: Global,
    image: &Image,
    guesses: &[Guess],
    a: u64,
    line: Option<Line>,
    marked: bool,
    s: &State,
) -> Result<Flow, Memory>
    requires { IfSome line (λ line. IsWellFormed line.instr) }
    ensures { IfOk result (λ f. f ≡ flow_by (Some s.now) marked line (opaque_at image.now a) (is_some (code_at image.now a)) (guess_at guesses.now a) a) }
{
    if marked {
        return Ok(Flow::Stuck);
    }
    match line {
        Some(line) => {
            let guess = guess_at(alloc, guesses, a)?;
            let next = a.wrapping_add(u64::from(line.length));
            flow_under(alloc, line.instr, guess, a, next, s)
        }
        None => opaque_flow(alloc, opaque_at(image, a), has_code(image, a), a, s),
    }
}

fn opaque_flow(
    alloc: Global,
    row: Option<Row>,
    some: bool,
    a: u64,
    s: &State,
) -> Result<Flow, Memory>
    requires { IfSome row (λ row. (row.rd < 32) × (row.base < 32)) }
    ensures { IfOk result (λ f. f ≡ opaque_flow row some a s.now) }
{
    match row {
        Some(row) if row.halts => Ok(Flow::Halt),
        Some(row) => {
            let after = opaque_state(alloc, row, a, s)?;
            Ok(Flow::Past(row, a.wrapping_add(u64::from(row.length)), after))
        }
        None if some => Ok(Flow::Stuck),
        None => Ok(Flow::Halt),
    }
}
