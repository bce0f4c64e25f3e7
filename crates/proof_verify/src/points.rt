//! The states at nodes: at a head what its maps make of the entry states, and behind it those that are pushed along its chain.

ghost use Rattle.std.specs.Prelude.{◌≡◌, ◌++◌, ◌∷◌, ◌<◌, [], All, map, length, IfOk, OnOk};
ghost use Rattle.row_modules.specs.Bases.{IsLeadingBasis};
ghost use Rattle.map_modules.specs.Matrices.{apply};
ghost use Rattle.affine_prog.specs.Programs.{IsWellFormed};
ghost use Rattle.block_program.specs.Numbers.{AreBlocks};
ghost use Rattle.proof_verify.specs.Points.{AreProducts, IsHeadBasis, HasStatesAt, HaveStatesBelow};

use crate::bases::basis_of;
use crate::lookups::{basis_at, owner_of};
use affine_prog::Program;
use block_program::{Blocks, push};
use lead_basis::{Basis, Memory, Steps};
use map_modules::{Mat, MatBasis, apply};
use sqlite_items::Items;
use std::alloc::Global;
use std::sync::ledger::Ledger;
use word_rows::Row;

// Puts what a map makes of each state at the end of a list.
fn push_applied(rows: &mut Items<Row<17>>, m: &Mat, states: &[Row<17>]) -> Result<(), Memory>
    ensures { OnOk result (rows.new ≡ rows.old ++ map (apply m.now) states.now) }
{
    for state in states {
        match rows.push(apply(m, state)) {
            Ok(()) => {}
            Err(_) => return Err(Memory),
        }
    }
    Ok(())
}

// What each map makes of each state.
fn products(alloc: Global, maps: &[Mat], states: &[Row<17>]) -> Result<Items<Row<17>>, Memory>
    ensures { IfOk result (AreProducts maps.now states.now) }
{
    let mut rows = Items::new(alloc);
    for m in maps {
        push_applied(&mut rows, m, states)?;
    }
    Ok(rows)
}

// A basis of what the maps of a head make of the entry states of its procedure.
fn head_states<L: Ledger>(
    alloc: Global,
    maps: &MatBasis,
    states: &Basis<17>,
    steps: &mut Steps<L>,
) -> Result<Basis<17>, Memory>
    ensures { IfOk result (IsHeadBasis maps.now states.now) }
{
    let rows = products(alloc, maps.rows(), states.rows())?;
    basis_of(alloc, rows.as_slice(), steps)
}

// A basis of the states at a node, from those at the nodes before it.
fn states_at<L: Ledger>(
    alloc: Global,
    program: &Program,
    blocks: &Blocks,
    levels: &[MatBasis],
    entries: &[Basis<17>],
    kept: &[Basis<17>],
    node: u32,
    steps: &mut Steps<L>,
) -> Result<Basis<17>, Memory>
    requires formed { IsWellFormed program.now }
    requires blocks { AreBlocks program.now blocks.now }
    requires levels { length levels.now ≡ blocks.now.small.nodes }
    requires level_bases { All (IsLeadingBasis 289) levels.now }
    requires entries { length entries.now ≡ length program.now.procs }
    requires entry_bases { All (IsLeadingBasis 17) entries.now }
    requires kept { HaveStatesBelow program.now blocks.now levels.now entries.now node kept.now }
    requires node { node < program.now.nodes }
    ensures { IfOk result (HasStatesAt program.now blocks.now levels.now entries.now node) }
{
    match blocks.node_of(node) {
        Some(head) => {
            let owner = owner_of(program, node as usize);
            let maps = basis_at(levels, head as usize);
            head_states(alloc, maps, basis_at(entries, owner), steps)
        }
        None => {
            let edge = &program.edges.as_slice()[blocks.edge_into(node) as usize];
            let before = basis_at(kept, edge.from as usize);
            before.known();
            let pushed = push(alloc, edge, before, steps)?;
            pushed.known();
            Ok(pushed)
        }
    }
}

fn push_basis(kept: &mut Vec<Basis<17>>, states: Basis<17>) -> Result<(), Memory>
    ensures { OnOk result (kept.new.items ≡ kept.old.items ++ states ∷ []) }
{
    match kept.push(states) {
        Ok(()) => Ok(()),
        Err(_) => Err(Memory),
    }
}

/// For each node a basis of its states.
pub(crate) fn states_of<L: Ledger>(
    alloc: Global,
    program: &Program,
    blocks: &Blocks,
    levels: &[MatBasis],
    entries: &[Basis<17>],
    steps: &mut Steps<L>,
) -> Result<Vec<Basis<17>>, Memory>
    requires formed { IsWellFormed program.now }
    requires blocks { AreBlocks program.now blocks.now }
    requires levels { length levels.now ≡ blocks.now.small.nodes }
    requires level_bases { All (IsLeadingBasis 289) levels.now }
    requires entries { length entries.now ≡ length program.now.procs }
    requires entry_bases { All (IsLeadingBasis 17) entries.now }
    ensures { IfOk result (λ states. HaveStatesBelow program.now blocks.now levels.now entries.now program.now.nodes states.items) }
{
    let mut kept = Vec::new(alloc);
    for node in 0..program.nodes {
        let states = states_at(
            alloc,
            program,
            blocks,
            levels,
            entries,
            kept.as_slice(),
            node,
            steps,
        )?;
        push_basis(&mut kept, states)?;
    }
    Ok(kept)
}
