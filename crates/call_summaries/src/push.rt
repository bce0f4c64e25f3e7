//! What one edge makes of a row, offered to its end.

ghost use Rattle.std.specs.Prelude.{◌≡◌, ◌<◌, ℕ, List, All, Contains, IfOk, length, bit_and};
ghost use Rattle.affine_prog.specs.Assignments.{position_of};
ghost use Rattle.affine_prog.specs.Programs.{exit_of, owner_of, slots_of, IsWellFormed};
ghost use Rattle.affine_prog.specs.Spans.{IsMapTo};
ghost use Rattle.row_images.specs.Images.{IsConstantRow, IsPrepared};
ghost use Rattle.row_engine.specs.States.{rows_at};
ghost use Rattle.row_engine.specs.Growth.{Takes};
ghost use Rattle.row_engine.specs.Turns.{Grown};
ghost use Rattle.call_summaries.specs.Sound.{AreSound, IsSound, IsReturned};
ghost use Rattle.call_summaries.specs.Offers.{Returned};
ghost use Rattle.call_summaries.specs.Tables.{assigns_of};
ghost use Rattle.call_summaries.specs.Pushes.{Forward, Back};

use crate::take::{take_calls, take_products};
use affine_prog::{Assign, Edge, Kind, Program};
use lead_basis::{Memory, Steps};
use map_modules::{Mat, extend_call};
use row_engine::Nodes;
use row_images::images_along;
use sqlite_items::Items;
use std::alloc::Global;
use std::sync::ledger::Ledger;

/// The registers, and the slots of the procedure that owns a node.
fn sets_at(program: &Program, node: u32) -> (u16, u16)
    requires formed { IsWellFormed program.now }
    requires node { node < program.now.nodes }
    ensures registers { result.0 ≡ program.now.registers }
    ensures slots { result.1 ≡ slots_of program.now (owner_of program.now node) }
    ensures disjoint { bit_and result.0 result.1 ≡ 0 }
{
    let owner = program.proc_of(node);
    (
        program.registers,
        program.procs.as_slice()[owner as usize].slots,
    )
}

/// The exit of a procedure.
fn exit_of(program: &Program, callee: u32) -> u32
    requires formed { IsWellFormed program.now }
    requires callee { callee < length program.now.procs }
    ensures exit { result ≡ exit_of program.now callee }
    ensures node { result < program.now.nodes }
{
    program.procs.as_slice()[callee as usize].exit
}

/// A copy of the rows of a node.
fn rows_of(alloc: Global, nodes: &Nodes<289>, node: u32) -> Result<Items<Mat>, Memory>
    requires { node < length nodes.now.bases }
    ensures { IfOk result (λ rows. rows ≡ rows_at nodes.now node) }
{
    match Items::from_slice(alloc, nodes.rows(node)) {
        Ok(rows) => Ok(rows),
        Err(_) => Err(Memory),
    }
}

/// Offers what an edge makes of a row, and of it and the rows of the callee's exit.
pub(crate) fn push_forward<L: Ledger>(
    alloc: Global,
    program: &Program,
    edge: &Edge,
    prepared: &[Mat],
    nodes: &mut Nodes<289>,
    row: &Mat,
    steps: &mut Steps<L>,
) -> Result<(), Memory>
    requires formed { IsWellFormed program.now }
    requires edge { Contains program.now.edges edge.now }
    requires prepared { IsPrepared (assigns_of edge.now.kind) prepared.now }
    requires nodes { length nodes.old.bases ≡ program.now.nodes }
    requires sound { AreSound program.now nodes.old }
    requires own { IsSound program.now edge.now.from row.now }
    ensures { Grown 289 (IsMapTo program.now) nodes.old nodes.new result steps.old steps.new (Forward program.now edge.now nodes.old nodes.new row.now) }
{
    nodes.known();
    match &edge.kind {
        Kind::Do(assigns) => {
            let images = images_along(alloc, assigns.as_slice(), prepared, row)?;
            nodes.offer(edge.to, images.as_slice(), steps)
        }
        Kind::Call { callee, before } => {
            let images = images_along(alloc, before.as_slice(), prepared, row)?;
            let callees = rows_of(alloc, nodes, exit_of(program, *callee))?;
            let sets = sets_at(program, edge.from);
            take_calls(
                alloc,
                nodes,
                edge.to,
                sets,
                callees.as_slice(),
                images.as_slice(),
                steps,
            )
        }
    }
}

/// Offers what a call makes of each caller's row, with an extended map of the callee.
fn take_callers<L: Ledger>(
    alloc: Global,
    before: &[Assign],
    prepared: &[Mat],
    nodes: &mut Nodes<289>,
    to: u32,
    extended: &Mat,
    callers: &[Mat],
    steps: &mut Steps<L>,
) -> Result<(), Memory>
    requires placed { All (λ a. position_of a < 16) before.now }
    requires prepared { IsPrepared before.now prepared.now }
    requires callers { (m : List ℕ) → Contains callers.now m → IsConstantRow 17 m }
    requires to { to < length nodes.old.bases }
    ensures { Takes 289 (Returned before.now extended.now to callers.now) nodes.old nodes.new result steps.old steps.new }
{
    nodes.known();
    for caller in callers {
        let images = images_along(alloc, before, prepared, caller)?;
        take_products(alloc, nodes, to, extended, images.as_slice(), steps)?;
    }
    Ok(())
}

/// Offers what a call makes of a row of its callee's exit and the rows at the call.
pub(crate) fn push_back<L: Ledger>(
    alloc: Global,
    program: &Program,
    edge: &Edge,
    prepared: &[Mat],
    nodes: &mut Nodes<289>,
    row: &Mat,
    steps: &mut Steps<L>,
) -> Result<(), Memory>
    requires formed { IsWellFormed program.now }
    requires edge { Contains program.now.edges edge.now }
    requires prepared { IsPrepared (assigns_of edge.now.kind) prepared.now }
    requires nodes { length nodes.old.bases ≡ program.now.nodes }
    requires sound { AreSound program.now nodes.old }
    requires own { IsReturned program.now edge.now.kind row.now }
    ensures { Grown 289 (IsMapTo program.now) nodes.old nodes.new result steps.old steps.new (Back program.now edge.now nodes.old nodes.new row.now) }
{
    nodes.known();
    match &edge.kind {
        Kind::Do(_) => Ok(()),
        Kind::Call { before, .. } => {
            let sets = sets_at(program, edge.from);
            let extended = extend_call(row, sets.0, sets.1);
            let callers = rows_of(alloc, nodes, edge.from)?;
            take_callers(
                alloc,
                before.as_slice(),
                prepared,
                nodes,
                edge.to,
                &extended,
                callers.as_slice(),
                steps,
            )
        }
    }
}
