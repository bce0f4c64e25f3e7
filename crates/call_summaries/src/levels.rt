//! The summaries of a program.

ghost use Rattle.std.specs.Prelude.{◌≡◌, ◌+◌, ◌≤◌, IfOk, length, map};
ghost use Rattle.affine_prog.specs.Programs.{IsWellFormed};
ghost use Rattle.affine_prog.specs.Spans.{rows_at, AreExits, AreLevels};
ghost use Rattle.row_engine.specs.States.{row_count};
ghost use Rattle.call_summaries.specs.Work.{work_bound};

use crate::returning::{all_procs, returning_procs};
use crate::solve::solve;
use crate::{Exits, Summaries};
use affine_prog::Program;
use lead_basis::{Memory, Steps};
use map_modules::MatBasis;
use std::alloc::Global;
use std::mem::replace;
use std::sync::ledger::Ledger;

/// For each node a basis of the module of the maps of the level paths to it. The counter rises by at least the number of
/// their rows, and never by more than the bound.
pub fn summaries<L: Ledger>(
    alloc: Global,
    program: &Program,
    steps: &mut Steps<L>,
) -> Result<Summaries, Memory>
    requires { IsWellFormed program.now }
    ensures exact { IfOk result (λ levels. AreLevels program.now levels) }
    ensures never_falls { steps.old ≤ steps.new }
    ensures bounded { steps.new ≤ steps.old + work_bound program.now }
    ensures counted { IfOk result (λ levels. steps.old + row_count levels ≤ steps.new) }
{
    let wanted = all_procs(alloc, program)?;
    let levels = solve(alloc, program, &wanted, steps)?;
    Ok(Summaries { levels })
}

/// For each procedure a basis of the module of the maps of its level paths to its exit. Procedures that can't return are
/// left out of the work. The counter rises as in [`summaries`].
pub fn exits<L: Ledger>(
    alloc: Global,
    program: &Program,
    steps: &mut Steps<L>,
) -> Result<Exits, Memory>
    requires { IsWellFormed program.now }
    ensures exact { IfOk result (λ bases. AreExits program.now bases) }
    ensures never_falls { steps.old ≤ steps.new }
    ensures bounded { steps.new ≤ steps.old + work_bound program.now }
    ensures counted { IfOk result (λ bases. steps.old + row_count bases ≤ steps.new) }
{
    let wanted = returning_procs(alloc, program)?;
    let levels = solve(alloc, program, &wanted, steps)?;
    let bases = exits_of(alloc, program, levels)?;
    Ok(Exits { bases })
}

/// The bases at the exits, by procedure.
fn exits_of(
    alloc: Global,
    program: &Program,
    mut levels: Vec<MatBasis>,
) -> Result<Vec<MatBasis>, Memory>
    requires formed { IsWellFormed program.now }
    requires nodes { length levels.items ≡ program.now.nodes }
    ensures exits { IfOk result (λ exits. exits.items ≡ map (λ proc. rows_at levels.items proc.exit) program.now.procs) }
    ensures fewer { IfOk result (λ exits. row_count exits.items ≤ row_count levels.items) }
{
    let mut exits = Vec::new(alloc);
    for proc in program.procs.as_slice() {
        let basis = replace(&mut levels[proc.exit as usize], MatBasis::new(alloc));
        match exits.push(basis) {
            Ok(()) => {}
            Err(_) => return Err(Memory),
        }
    }
    Ok(exits)
}
