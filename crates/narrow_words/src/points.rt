//! The points of a report: what holds modulo 2^32 of the states that reach them.

ghost use Rattle.std.specs.Prelude.{◌≡◌, ◌<◌, ◌++◌, ◌∷◌, [], length, IfOk, OnOk};
ghost use Rattle.affine_prog.specs.Programs.{IsWellFormed};
ghost use Rattle.affine_prog.specs.Spans.{AreReached};
ghost use Rattle.affine_lift.specs.declared.width.Width.TheVariants.{Narrow};
ghost use Rattle.affine_lift.specs.Lifting.{IsLiftedBy};
ghost use Rattle.block_program.specs.Numbers.{AreBlocks};
ghost use Rattle.analyser_core.specs.States.{HasStates};
ghost use Rattle.narrow_words.specs.Made.{AreNarrowTold, IsNarrowTold};

use affine_prog::{Program, paths_keep_states, relations_annihilate_states};
use analyser_core::{keep, last_followers, next_states, states_at, visible_at};
use block_program::Blocks;
use flow_points::Points;
use lead_basis::{Basis, Memory, Steps};
use narrow_solver::solve::narrow_relations;
use reach_modules::Reach;
use report_text::{NarrowTracked, PointRows};
use sqlite_items::Items;
use std::alloc::Global;
use std::sync::ledger::Ledger;

/// Each point with what holds modulo 2^32 of the states that reach it. The states at merged nodes are made node after node,
/// told, and dropped where no node to come needs them.
pub(crate) fn narrow_points<L: Ledger>(
    alloc: Global,
    points: &Points,
    tracked: &NarrowTracked,
    program: &Program,
    blocks: &Blocks,
    reached: &Reach,
    steps: &mut Steps<L>,
) -> Result<Items<PointRows>, Memory>
    requires formed { IsWellFormed program.now }
    requires lifted { IsLiftedBy Narrow points.now tracked.now.names program.now }
    requires blocks { AreBlocks program.now blocks.now }
    requires reached { AreReached blocks.now.small reached.now }
    ensures told { IfOk result (AreNarrowTold program.now points.now tracked.now.names) }
    ensures count { IfOk result (λ told. length told ≡ length points.now.points) }
{
    points.known();
    let last = last_followers(alloc, program, blocks)?;
    let mut kept = Vec::new(alloc);
    let mut told = Items::new(alloc);
    for node in 0..program.nodes {
        let made = next_states(
            alloc,
            program,
            blocks,
            reached,
            kept.as_slice(),
            node,
            steps,
        )?;
        made.known();
        if node < points.count() {
            let states = states_at(blocks, reached, &made, node);
            let point = narrow_point(alloc, points, tracked, program, states, node)?;
            push(&mut told, point)?;
        }
        keep(alloc, program, blocks, &last, &mut kept, made, node)?;
    }
    Ok(told)
}

// A point with what holds modulo 2^32 of the states that reach it.
fn narrow_point(
    alloc: Global,
    points: &Points,
    tracked: &NarrowTracked,
    program: &Program,
    states: &Basis<17>,
    node: u32,
) -> Result<PointRows, Memory>
    requires formed { IsWellFormed program.now }
    requires lifted { IsLiftedBy Narrow points.now tracked.now.names program.now }
    requires node { node < length points.now.points }
    requires states { HasStates program.now node states.now }
    ensures { IfOk result (IsNarrowTold program.now points.now tracked.now.names node) }
{
    points.known();
    states.known();
    paths_keep_states();
    relations_annihilate_states();
    let point = points.point(node);
    let state = narrow_relations(alloc, states, visible_at(program, node))?;
    Ok(PointRows {
        proc_entry: point.proc_entry,
        address: point.address,
        state,
    })
}

fn push(told: &mut Items<PointRows>, point: PointRows) -> Result<(), Memory>
    ensures { OnOk result (told.new ≡ told.old ++ point ∷ []) }
{
    match told.push(point) {
        Ok(()) => Ok(()),
        Err(_) => Err(Memory),
    }
}
