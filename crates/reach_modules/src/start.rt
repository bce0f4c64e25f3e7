//! Where the rows start.

ghost use Rattle.std.specs.Prelude.{IfOk};
ghost use Rattle.affine_prog.specs.Programs.{IsWellFormed};
ghost use Rattle.row_images.specs.States.{Spans};
ghost use Rattle.reach_modules.specs.Moves.{IsFirst};

use crate::edges::opened;
use crate::made::{positions, push_opened};
use affine_prog::Program;
use lead_basis::Memory;
use sqlite_items::Items;
use std::alloc::Global;
use word_rows::Row;

/// Rows that span what the openings of the start procedure make of all starts.
pub(crate) fn first_rows(alloc: Global, program: &Program) -> Result<Items<Row<17>>, Memory>
    requires { IsWellFormed program.now }
    ensures { IfOk result (λ rows. Spans rows (IsFirst program.now)) }
{
    let registers = positions(alloc, program.registers)?;
    let mut starts = Items::new(alloc);
    push_opened(
        &mut starts,
        registers.as_slice(),
        Row::zero().with(16, 1),
        1,
    )?;
    opened(alloc, program, program.start, starts.as_slice())
}
