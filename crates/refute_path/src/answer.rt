//! Whether a row holds, or a path that breaks it.

ghost use Rattle.std.specs.Prelude.{◌≡◌, ◌<◌, IfOk};
ghost use Rattle.affine_prog.specs.Programs.{owner_of, visible_in, IsWellFormed};
ghost use Rattle.row_modules.specs.Positions.{with_constant, IsZeroOutside};
ghost use Rattle.refute_path.specs.Writing.{CallsAreSure};
ghost use Rattle.refute_path.specs.Answers.{IsAnswer};

use crate::closing::place_all;
use crate::derivations::Break;
use crate::enters::enter_all;
use crate::search::find_break;
use crate::writing::write_back;
use affine_prog::Program;
use lead_basis::{Memory, Steps};
use std::alloc::Global;
use std::sync::ledger::Ledger;
use word_rows::Row;

/// That a row holds, or a counterexample.
#[derive(Debug, Drop)]
pub enum Refuted {
    Holds,
    Broken(Break),
}

/// Whether a row holds at a node: the answer is `Holds` exactly where the row is 0 after every open path from every start, and
/// else a counterexample. Which one is given is left open. The counter rises with each map and each entry that is placed.
pub fn refute<L: Ledger>(
    alloc: Global,
    program: &Program,
    node: u32,
    row: &Row<17>,
    steps: &mut Steps<L>,
) -> Result<Refuted, Memory>
    requires formed { IsWellFormed program.now }
    requires sure { CallsAreSure program.now }
    requires node { node < program.now.nodes }
    requires row { IsZeroOutside (with_constant (visible_in program.now (owner_of program.now node))) row.now }
    ensures { IfOk result (IsAnswer program.now node row.now) }
{
    row.known();
    let items = place_all(alloc, program, steps)?;
    let entries = enter_all(alloc, program, items.as_slice(), steps)?;
    let proc = program.proc_of(node);
    match find_break(items.as_slice(), entries.as_slice(), node, proc, row) {
        None => Ok(Refuted::Holds),
        Some(pair) => {
            let found = write_back(
                alloc,
                program,
                items.as_slice(),
                entries.as_slice(),
                pair,
                row,
            )?;
            Ok(Refuted::Broken(found))
        }
    }
}
