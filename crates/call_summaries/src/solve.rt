//! Bases at the nodes of chosen procedures.

ghost use Rattle.std.specs.Prelude.{◌≡◌, ◌+◌, ◌≤◌, IfOk, length};
ghost use Rattle.affine_prog.specs.Programs.{IsWellFormed};
ghost use Rattle.row_engine.specs.States.{row_count};
ghost use Rattle.call_summaries.specs.Work.{work_bound};
ghost use Rattle.call_summaries.specs.Solutions.{OthersStay, IsSolved};

use crate::lookups::tables_of;
use crate::openings::open_all;
use crate::worklist::ProgramMoves;
use affine_prog::{Program, paths_end_at_nodes};
use lead_basis::{Memory, Steps};
use map_modules::MatBasis;
use row_engine::{Nodes, close};
use std::alloc::Global;
use std::sync::ledger::Ledger;

/// For each node a basis: of the module of the maps of the level paths to it, where its procedure is wanted. A procedure that
/// isn't wanted must have no level path to its exit, and its nodes have bases without rows.
pub(crate) fn solve<L: Ledger>(
    alloc: Global,
    program: &Program,
    wanted: &[bool],
    steps: &mut Steps<L>,
) -> Result<Vec<MatBasis>, Memory>
    requires formed { IsWellFormed program.now }
    requires wanted { length wanted.now ≡ length program.now.procs }
    requires others { OthersStay program.now wanted.now }
    ensures solved { IfOk result (λ bases. IsSolved program.now wanted.now bases.items) }
    ensures never_falls { steps.old ≤ steps.new }
    ensures bounded { steps.new ≤ steps.old + work_bound program.now }
    ensures counted { IfOk result (λ bases. steps.old + row_count bases.items ≤ steps.new) }
{
    paths_end_at_nodes();
    let tables = tables_of(alloc, program)?;
    let mut nodes = Nodes::<289>::new(alloc, program.nodes)?;
    open_all(alloc, program, wanted, &mut nodes, steps)?;
    let moves = ProgramMoves {
        program,
        tables: &tables,
    };
    close(alloc, &moves, &mut nodes, steps)?;
    Ok(nodes.into_bases())
}
