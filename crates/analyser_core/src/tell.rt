//! The points of a report: what the states that reach them tell.

ghost use Rattle.std.specs.Prelude.{◌≡◌, ◌+◌, ◌*◌, ◌<◌, ◌≤◌, ◌++◌, ◌∷◌, [], length, All, IfOk, OnOk};
ghost use Rattle.row_modules.specs.Bases.{IsLeadingBasis};
ghost use Rattle.affine_prog.specs.Programs.{IsWellFormed};
ghost use Rattle.affine_prog.specs.Spans.{AreReached};
ghost use Rattle.affine_lift.specs.Lifting.{IsLifted};
ghost use Rattle.block_program.specs.Numbers.{AreBlocks};
ghost use Rattle.analyser_core.specs.States.{HasStates, merged_count, AreCounted};
ghost use Rattle.analyser_core.specs.Told.{AreRelated, AreTold, IsTold, RelatesAt};

use crate::kept::{keep, last_followers};
use crate::point_state::state_at;
use crate::states::{next_states, states_at};
use affine_lift::visible_names_are_seen;
use affine_prog::{Program, paths_keep_states, relations_annihilate_states};
use block_program::Blocks;
use flow_points::Points;
use lead_basis::{Basis, Memory, Steps};
use reach_modules::Reach;
use report_text::{PointRows, Tracked};
use sqlite_items::Items;
use std::alloc::Global;
use std::sync::ledger::Ledger;

/// Each point with the relations of the states that reach it. The states at merged nodes are made node after node, told, and
/// dropped where no node to come needs them.
pub(crate) fn told<L: Ledger>(
    alloc: Global,
    points: &Points,
    tracked: &Tracked,
    program: &Program,
    blocks: &Blocks,
    reached: &Reach,
    steps: &mut Steps<L>,
) -> Result<Items<PointRows>, Memory>
    requires formed { IsWellFormed program.now }
    requires lifted { IsLifted points.now tracked.now.names program.now }
    requires blocks { AreBlocks program.now blocks.now }
    requires reached { AreReached blocks.now.small reached.now }
    ensures told { IfOk result (AreTold program.now points.now tracked.now.names) }
    ensures count { IfOk result (λ told. length told ≡ length points.now.points) }
    ensures never_falls { steps.old ≤ steps.new }
    ensures counts_no_more { steps.new ≤ steps.old + 64 * (program.now.width + 1) * merged_count blocks.now }
    ensures counts_rows { IfOk result (λ told. AreCounted program.now blocks.now.merging steps.old steps.new) }
{
    points.known();
    let last = last_followers(alloc, program, blocks)?;
    let mut kept = Vec::new(alloc);
    let mut told = Items::new(alloc);
    for node in 0..program.nodes {
        let made = next_states(
            alloc,
            program,
            blocks,
            reached,
            kept.as_slice(),
            node,
            steps,
        )?;
        made.known();
        if node < points.count() {
            let states = states_at(blocks, reached, &made, node);
            let point = told_at(
                alloc,
                points,
                tracked,
                program,
                blocks,
                states,
                told.as_slice(),
                node,
            )?;
            push(&mut told, point)?;
        }
        keep(alloc, program, blocks, &last, &mut kept, made, node)?;
    }
    Ok(told)
}

// A point with the relations of the states that reach it, behind all smaller ones.
fn told_at(
    alloc: Global,
    points: &Points,
    tracked: &Tracked,
    program: &Program,
    blocks: &Blocks,
    states: &Basis<17>,
    told: &[PointRows],
    node: u32,
) -> Result<PointRows, Memory>
    requires formed { IsWellFormed program.now }
    requires lifted { IsLifted points.now tracked.now.names program.now }
    requires blocks { AreBlocks program.now blocks.now }
    requires node { node < length points.now.points }
    requires states { HasStates program.now node states.now }
    requires count { length told.now ≡ node }
    requires related { AreRelated program.now told.now }
    ensures told { IfOk result (IsTold program.now points.now tracked.now.names node) }
    ensures related { IfOk result (λ point. RelatesAt program.now node point.state) }
{
    points.known();
    states.known();
    paths_keep_states();
    relations_annihilate_states();
    visible_names_are_seen();
    let point = points.point(node);
    let state = state_at(alloc, program, blocks, states, told, node)?;
    Ok(PointRows {
        proc_entry: point.proc_entry,
        address: point.address,
        state,
    })
}

/// What the bases of the states keep.
pub(crate) fn known_states(reached: &Reach, nodes: u32)
    requires { length reached.now ≡ nodes }
    ensures { All (IsLeadingBasis 17) reached.now }
{
    for u in 0..nodes {
        reached.at(u).known();
    }
}

fn push(told: &mut Items<PointRows>, point: PointRows) -> Result<(), Memory>
    ensures { OnOk result (told.new ≡ told.old ++ point ∷ []) }
{
    match told.push(point) {
        Ok(()) => Ok(()),
        Err(_) => Err(Memory),
    }
}
