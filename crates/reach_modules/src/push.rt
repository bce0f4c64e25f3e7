//! States that are pushed along the moves of a program.

ghost use Rattle.std.specs.Prelude.{◌≡◌, ◌<◌, ℕ, List, [], ◌∷◌, All, Contains, length};
ghost use Rattle.row_modules.specs.Modules.{IsCombination};
ghost use Rattle.affine_prog.specs.Spans.{IsStateAt};
ghost use Rattle.row_engine.specs.States.{IsState};
ghost use Rattle.row_engine.specs.Growth.{Takes};
ghost use Rattle.reach_modules.specs.Offers.{IsListed, IsOffer};
ghost use Rattle.reach_modules.specs.Turns.{IsReady, Reaches};

use crate::edges::row_offers;
use crate::{Offer, Tables};
use affine_prog::Program;
use lead_basis::{Memory, Steps};
use map_modules::MatBasis;
use row_engine::{Moves, Nodes};
use std::alloc::Global;
use std::sync::ledger::Ledger;
use word_rows::Row;

/// The moves of a program along its edges, with the bases of what its procedures do.
#[derive(Drop)]
pub(crate) struct ProgramMoves<'a> {
    pub(crate) program: &'a Program,
    pub(crate) summaries: &'a [MatBasis],
    pub(crate) tables: &'a Tables,
}

impl<'a> Moves<17> for ProgramMoves<'a> {
    ghost use Rattle.affine_prog.specs.Spans.{IsStateAt};
    ghost use Rattle.row_engine.specs.Turns.{NoJoins};
    ghost use Rattle.reach_modules.specs.Turns.{IsReady, MakesOf};

    ghost formed = { λ m. IsReady m.program.now m.summaries.now m.tables.now.places m.tables.now.out.items };

    ghost count = { λ m. m.program.now.nodes };

    ghost makes = { λ m. MakesOf m.program.now };

    ghost joins = { λ m. NoJoins };

    ghost states = { λ m. IsStateAt m.program.now };

    fn push<L: Ledger>(
        &self,
        alloc: Global,
        nodes: &mut Nodes<17>,
        node: u32,
        rows: &[Row<17>],
        steps: &mut Steps<L>,
    ) -> Result<(), Memory> {
        push_rows(
            alloc,
            self.program,
            self.summaries,
            self.tables,
            nodes,
            node,
            rows,
            steps,
        )
    }
}

/// Offers rows in turn.
fn take_all<L: Ledger>(
    nodes: &mut Nodes<17>,
    offers: &[Offer],
    steps: &mut Steps<L>,
) -> Result<(), Memory>
    requires { All (IsOffer (length nodes.old.bases)) offers.now }
    ensures { Takes 17 (IsListed offers.now) nodes.old nodes.new result steps.old steps.new }
{
    nodes.known();
    for offered in offers {
        nodes.take(offered.node, &offered.row, steps)?;
    }
    Ok(())
}

/// Pushes a row of a node along the moves from it.
fn push_row<L: Ledger>(
    alloc: Global,
    program: &Program,
    summaries: &[MatBasis],
    tables: &Tables,
    nodes: &mut Nodes<17>,
    node: u32,
    row: &Row<17>,
    steps: &mut Steps<L>,
) -> Result<(), Memory>
    requires ready { IsReady program.now summaries.now tables.now.places tables.now.out.items }
    requires node { node < program.now.nodes }
    requires nodes { length nodes.old.bases ≡ program.now.nodes }
    requires own { IsCombination 17 (IsStateAt program.now node) row.now }
    ensures { Reaches program.now nodes.old nodes.new node (row.now ∷ []) result steps.old steps.new }
{
    nodes.known();
    let offers = row_offers(alloc, program, summaries, tables, node, row)?;
    take_all(nodes, offers.as_slice(), steps)
}

/// Pushes rows of a node, in turn.
fn push_rows<L: Ledger>(
    alloc: Global,
    program: &Program,
    summaries: &[MatBasis],
    tables: &Tables,
    nodes: &mut Nodes<17>,
    node: u32,
    rows: &[Row<17>],
    steps: &mut Steps<L>,
) -> Result<(), Memory>
    requires ready { IsReady program.now summaries.now tables.now.places tables.now.out.items }
    requires node { node < program.now.nodes }
    requires is { IsState 17 program.now.nodes nodes.old }
    requires rows { (v : List ℕ) → Contains rows.now v → IsCombination 17 (IsStateAt program.now node) v }
    ensures { Reaches program.now nodes.old nodes.new node rows.now result steps.old steps.new }
{
    for row in rows {
        push_row(alloc, program, summaries, tables, nodes, node, row, steps)?;
    }
    Ok(())
}
