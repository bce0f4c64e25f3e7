//! What is told of the states at a point.

ghost use Rattle.std.specs.Prelude.{◌≡◌, ◌<◌, IsTrue, IfOk, IfSome, length};
ghost use Rattle.row_modules.specs.Positions.{has, with_constant};
ghost use Rattle.affine_prog.specs.Programs.{IsWellFormed, owner_of, visible_in};
ghost use Rattle.block_program.specs.Numbers.{AreBlocks};
ghost use Rattle.analyser_core.specs.States.{HasStates};
ghost use Rattle.analyser_core.specs.Told.{Relates, RelatesAt, AreRelated, PassesOn};

use affine_prog::{Kind, Program};
use block_program::Blocks;
use lead_basis::{Basis, Memory};
use relation_solver::{Relations, solve};
use report_text::{PointRows, PointState};
use sqlite_items::Items;
use std::alloc::Global;

/// The relations of the states at a node, which are given, behind what is told of all smaller nodes. Where an edge that
/// assigns nothing passes the states of another node on, what is told of that one is told again, and else the relations are
/// solved.
pub(crate) fn state_at(
    alloc: Global,
    program: &Program,
    blocks: &Blocks,
    states: &Basis<17>,
    told: &[PointRows],
    node: u32,
) -> Result<PointState, Memory>
    requires formed { IsWellFormed program.now }
    requires blocks { AreBlocks program.now blocks.now }
    requires node { node < program.now.nodes }
    requires states { HasStates program.now node states.now }
    requires count { length told.now ≡ node }
    requires told { AreRelated program.now told.now }
    ensures { IfOk result (RelatesAt program.now node) }
{
    match passed_from(program, blocks, node) {
        Some(from) => copy_of(alloc, &told[from as usize].state),
        None => state_of(alloc, states, visible_at(program, node)),
    }
}

// The node whose states are passed on to a node as they are, by the edge from its parent.
fn passed_from(program: &Program, blocks: &Blocks, node: u32) -> Option<u32>
    requires formed { IsWellFormed program.now }
    requires blocks { AreBlocks program.now blocks.now }
    requires node { node < program.now.nodes }
    ensures { IfSome result (λ from. PassesOn program.now blocks.now.merging from node) }
{
    if blocks.node_of(node).is_some() {
        return None;
    }
    let edge = &program.edges.as_slice()[blocks.edge_into(node) as usize];
    match &edge.kind {
        Kind::Do(assigns) if assigns.is_empty() => Some(edge.from),
        _ => None,
    }
}

/// The positions that are visible at a node, and the constant's.
pub fn visible_at(program: &Program, node: u32) -> u32
    requires formed { IsWellFormed program.now }
    requires node { node < program.now.nodes }
    ensures { result ≡ with_constant (visible_in program.now (owner_of program.now node)) }
{
    let owner = program.proc_of(node) as usize;
    let slots = program.procs.as_slice()[owner].slots;
    u32::from(program.registers | slots) | 1 << 16
}

// The relations of the states, where there are states.
fn state_of(alloc: Global, states: &Basis<17>, visible: u32) -> Result<PointState, Memory>
    requires { IsTrue (has visible 16) }
    ensures { IfOk result (Relates visible states.now) }
{
    match solve::relations(alloc, states, visible)? {
        Relations::Unreached => Ok(PointState::Unreached),
        Relations::Rows(basis) => {
            basis.known();
            Ok(PointState::Rows(Items::from_vec(basis.into_rows())))
        }
    }
}

fn copy_of(alloc: Global, state: &PointState) -> Result<PointState, Memory>
    ensures { IfOk result (λ copy. copy ≡ state.now) }
{
    match state {
        PointState::Unreached => Ok(PointState::Unreached),
        PointState::Rows(rows) => match Items::from_slice(alloc, rows.as_slice()) {
            Ok(rows) => Ok(PointState::Rows(rows)),
            Err(_) => Err(Memory),
        },
    }
}
