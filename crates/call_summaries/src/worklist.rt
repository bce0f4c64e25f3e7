//! Rows of a node that are pushed along edges, and back to calls.

ghost use Rattle.std.specs.Prelude.{◌≡◌, ◌<◌, ℕ, List, [], ◌∷◌, Contains, length};
ghost use Rattle.row_modules.specs.Modules.{IsCombination};
ghost use Rattle.affine_prog.specs.Programs.{IsWellFormed};
ghost use Rattle.affine_prog.specs.Spans.{IsMapTo};
ghost use Rattle.row_engine.specs.States.{IsState};
ghost use Rattle.row_engine.specs.Tables.{edge_at};
ghost use Rattle.row_engine.specs.Turns.{Grown};
ghost use Rattle.call_summaries.specs.Sound.{AreSound, IsSound, IsReturned};
ghost use Rattle.call_summaries.specs.Tables.{ArePrepared, AreTables};
ghost use Rattle.call_summaries.specs.Pushes.{Along, Forward, Back, Summarizes};

use crate::Tables;
use crate::push::{push_back, push_forward};
use affine_prog::Program;
use lead_basis::{Memory, Steps};
use map_modules::Mat;
use row_engine::{Moves, Nodes};
use sqlite_items::Items;
use std::alloc::Global;
use std::sync::ledger::Ledger;

/// The moves of a program along its edges and over its calls.
#[derive(Drop)]
pub(crate) struct ProgramMoves<'a> {
    pub(crate) program: &'a Program,
    pub(crate) tables: &'a Tables,
}

impl<'a> Moves<289> for ProgramMoves<'a> {
    ghost use Rattle.affine_prog.specs.Programs.{IsWellFormed};
    ghost use Rattle.affine_prog.specs.Spans.{IsMapTo};
    ghost use Rattle.call_summaries.specs.Tables.{AreTables};
    ghost use Rattle.call_summaries.specs.Pushes.{MakesOf, JoinsOf};

    ghost formed = { λ m. IsWellFormed m.program.now × AreTables m.program.now m.tables.now.prepared.items m.tables.now.out.items m.tables.now.back.items };

    ghost count = { λ m. m.program.now.nodes };

    ghost makes = { λ m. MakesOf m.program.now };

    ghost joins = { λ m. JoinsOf m.program.now };

    ghost states = { λ m. IsMapTo m.program.now };

    fn push<L: Ledger>(
        &self,
        alloc: Global,
        nodes: &mut Nodes<289>,
        node: u32,
        rows: &[Mat],
        steps: &mut Steps<L>,
    ) -> Result<(), Memory> {
        push_rows(alloc, self.program, self.tables, nodes, node, rows, steps)
    }
}

/// Pushes a row along edges.
fn push_out<L: Ledger>(
    alloc: Global,
    program: &Program,
    prepared: &[Items<Mat>],
    places: &[u32],
    nodes: &mut Nodes<289>,
    row: &Mat,
    steps: &mut Steps<L>,
) -> Result<(), Memory>
    requires formed { IsWellFormed program.now }
    requires prepared { ArePrepared program.now (length program.now.edges) prepared.now }
    requires places { (k : ℕ) → Contains places.now k → (k < length program.now.edges) × IsSound program.now (edge_at program.now k).from row.now }
    requires nodes { length nodes.old.bases ≡ program.now.nodes }
    requires sound { AreSound program.now nodes.old }
    ensures { Grown 289 (IsMapTo program.now) nodes.old nodes.new result steps.old steps.new (Along program.now (λ e. Forward program.now e nodes.old nodes.new row.now) places.now) }
{
    nodes.known();
    for place in places {
        let k = *place as usize;
        let edge = &program.edges.as_slice()[k];
        push_forward(
            alloc,
            program,
            edge,
            prepared[k].as_slice(),
            nodes,
            row,
            steps,
        )?;
    }
    Ok(())
}

/// Pushes a row of an exit back to calls.
fn push_to_calls<L: Ledger>(
    alloc: Global,
    program: &Program,
    prepared: &[Items<Mat>],
    places: &[u32],
    nodes: &mut Nodes<289>,
    row: &Mat,
    steps: &mut Steps<L>,
) -> Result<(), Memory>
    requires formed { IsWellFormed program.now }
    requires prepared { ArePrepared program.now (length program.now.edges) prepared.now }
    requires places { (k : ℕ) → Contains places.now k → (k < length program.now.edges) × IsReturned program.now (edge_at program.now k).kind row.now }
    requires nodes { length nodes.old.bases ≡ program.now.nodes }
    requires sound { AreSound program.now nodes.old }
    ensures { Grown 289 (IsMapTo program.now) nodes.old nodes.new result steps.old steps.new (Along program.now (λ e. Back program.now e nodes.old nodes.new row.now) places.now) }
{
    nodes.known();
    for place in places {
        let k = *place as usize;
        let edge = &program.edges.as_slice()[k];
        push_back(
            alloc,
            program,
            edge,
            prepared[k].as_slice(),
            nodes,
            row,
            steps,
        )?;
    }
    Ok(())
}

/// Pushes a row of a node along each edge from it, and back to each call of the procedure whose exit it is.
fn push_row<L: Ledger>(
    alloc: Global,
    program: &Program,
    tables: &Tables,
    nodes: &mut Nodes<289>,
    node: u32,
    row: &Mat,
    steps: &mut Steps<L>,
) -> Result<(), Memory>
    requires formed { IsWellFormed program.now }
    requires tables { AreTables program.now tables.now.prepared.items tables.now.out.items tables.now.back.items }
    requires node { node < program.now.nodes }
    requires nodes { length nodes.old.bases ≡ program.now.nodes }
    requires sound { AreSound program.now nodes.old }
    requires own { IsSound program.now node row.now }
    ensures { Summarizes program.now nodes.old nodes.new node (row.now ∷ []) result steps.old steps.new }
{
    nodes.known();
    let out = tables.out[node as usize].as_slice();
    let back = tables.back[node as usize].as_slice();
    push_out(alloc, program, &tables.prepared, out, nodes, row, steps)?;
    push_to_calls(alloc, program, &tables.prepared, back, nodes, row, steps)
}

/// Pushes rows of a node, in turn.
fn push_rows<L: Ledger>(
    alloc: Global,
    program: &Program,
    tables: &Tables,
    nodes: &mut Nodes<289>,
    node: u32,
    rows: &[Mat],
    steps: &mut Steps<L>,
) -> Result<(), Memory>
    requires formed { IsWellFormed program.now }
    requires tables { AreTables program.now tables.now.prepared.items tables.now.out.items tables.now.back.items }
    requires node { node < program.now.nodes }
    requires is { IsState 289 program.now.nodes nodes.old }
    requires sound { AreSound program.now nodes.old }
    requires rows { (v : List ℕ) → Contains rows.now v → IsCombination 289 (IsMapTo program.now node) v }
    ensures { Summarizes program.now nodes.old nodes.new node rows.now result steps.old steps.new }
{
    for row in rows {
        push_row(alloc, program, tables, nodes, node, row, steps)?;
    }
    Ok(())
}
