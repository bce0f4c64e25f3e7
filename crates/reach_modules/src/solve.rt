//! The states that reach the nodes, from what procedures do.

ghost use Rattle.std.specs.Prelude.{ℕ, ◌+◌, ◌*◌, ◌≤◌, IfOk};
ghost use Rattle.affine_prog.specs.Programs.{IsWellFormed};
ghost use Rattle.affine_prog.specs.Spans.{AreLevels, AreExits, AreReached};
ghost use Rattle.row_engine.specs.States.{row_count};
ghost use Rattle.reach_modules.specs.Tables.{ArePlaces};

use crate::places::{exits_of, numbers_to};
use crate::push::ProgramMoves;
use crate::start::first_rows;
use crate::{Reach, Tables};
use affine_prog::Program;
use lead_basis::{Memory, Steps};
use map_modules::MatBasis;
use row_engine::{Nodes, close, edges_out};
use sqlite_items::Items;
use std::alloc::Global;
use std::sync::ledger::Ledger;

/// For each node a basis of the module of the states that reach it, from a basis for each node of the module of the maps
/// of the level paths to it. It counts each placement of a row: at every answer at most 64 for each node and each tracked
/// name or the constant, and at Ok at least one for each row of the answer.
pub fn reach<L: Ledger>(
    alloc: Global,
    program: &Program,
    levels: &[MatBasis],
    steps: &mut Steps<L>,
) -> Result<Reach, Memory>
    requires formed { IsWellFormed program.now }
    requires levels { AreLevels program.now levels.now }
    ensures exact { IfOk result (λ reached. AreReached program.now reached) }
    ensures never_falls { steps.old ≤ steps.new }
    ensures counts_no_more { steps.new ≤ steps.old + 64 * program.now.nodes * (program.now.width + 1) }
    ensures counts_rows { IfOk result (λ reached. steps.old + row_count reached ≤ steps.new) }
{
    let places = exits_of(alloc, program)?;
    solve(alloc, program, levels, places, steps)
}

/// The same, from a basis for each procedure of the module of the maps of its level paths to its exit.
pub fn reach_by_exits<L: Ledger>(
    alloc: Global,
    program: &Program,
    exits: &[MatBasis],
    steps: &mut Steps<L>,
) -> Result<Reach, Memory>
    requires formed { IsWellFormed program.now }
    requires exits { AreExits program.now exits.now }
    ensures exact { IfOk result (λ reached. AreReached program.now reached) }
    ensures never_falls { steps.old ≤ steps.new }
    ensures counts_no_more { steps.new ≤ steps.old + 64 * program.now.nodes * (program.now.width + 1) }
    ensures counts_rows { IfOk result (λ reached. steps.old + row_count reached ≤ steps.new) }
{
    let places = numbers_to(alloc, program.procs.len())?;
    solve(alloc, program, exits, places, steps)
}

/// The same, from bases among which each procedure has a place.
fn solve<L: Ledger>(
    alloc: Global,
    program: &Program,
    summaries: &[MatBasis],
    places: Items<usize>,
    steps: &mut Steps<L>,
) -> Result<Reach, Memory>
    requires formed { IsWellFormed program.now }
    requires places { ArePlaces program.now summaries.now places }
    ensures exact { IfOk result (λ reached. AreReached program.now reached) }
    ensures never_falls { steps.old ≤ steps.new }
    ensures counts_no_more { steps.new ≤ steps.old + 64 * program.now.nodes * (program.now.width + 1) }
    ensures counts_rows { IfOk result (λ reached. steps.old + row_count reached ≤ steps.new) }
{
    let out = edges_out(alloc, program)?;
    let tables = Tables { out, places };
    let firsts = first_rows(alloc, program)?;
    let entry = program.procs.as_slice()[program.start as usize].entry;
    let mut nodes = Nodes::<17>::new(alloc, program.nodes)?;
    nodes.offer(entry, firsts.as_slice(), steps)?;
    let moves = ProgramMoves {
        program,
        summaries,
        tables: &tables,
    };
    close(alloc, &moves, &mut nodes, steps)?;
    Ok(Reach {
        bases: nodes.into_bases(),
    })
}
