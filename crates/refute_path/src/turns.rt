//! One turn of the loop over placed maps: an item is pushed along all edges.

ghost use Rattle.std.specs.Prelude.{◌≡◌, ◌<◌, ◌+◌, ℕ, List, OnOk, Some, length, slice_get, bit_and, IsTrue};
ghost use Rattle.affine_prog.specs.declared.Assign.{Assign as SomeAssign};
ghost use Rattle.affine_prog.specs.declared.Kind.TheVariants.{Call as CallEdge};
ghost use Rattle.affine_prog.specs.Programs.{edge, exit_of, owner_of, slots_of, IsWellFormed};
ghost use Rattle.refute_path.specs.Arenas.{IsArena};
ghost use Rattle.refute_path.specs.Gains.{Gains, IsStepOf, IsCallOf, IsForward, IsBack, IsAlong, IsAlongBelow};

use crate::Placed;
use crate::calls::{CallSite, push_calls};
use crate::pushes::push_choices;
use affine_prog::{Kind, Program};
use lead_basis::{Memory, Steps};
use map_modules::MatBasis;
use sqlite_items::Items;
use std::alloc::Global;
use std::sync::ledger::Ledger;

/// The slots of the procedure that owns a node.
pub(crate) fn slots_at(program: &Program, node: u32) -> u16
    requires formed { IsWellFormed program.now }
    requires node { node < program.now.nodes }
    ensures slots { result ≡ slots_of program.now (owner_of program.now node) }
    ensures apart { bit_and program.now.registers result ≡ 0 }
{
    let owner = program.proc_of(node);
    program.procs.as_slice()[owner as usize].slots
}

/// Whether an edge calls the procedure whose exit this node is.
fn returns_from(program: &Program, e: usize, node: u32) -> bool
    requires formed { IsWellFormed program.now }
    requires edge { e < length program.now.edges }
    ensures { (q u v : ℕ) (before : List SomeAssign) → slice_get program.now.edges e ≡ Some (edge u v (CallEdge q before)) → exit_of program.now q ≡ node → IsTrue result }
{
    match &program.edges.as_slice()[e].kind {
        Kind::Do(_) => false,
        Kind::Call { callee, .. } => program.procs.as_slice()[*callee as usize].exit == node,
    }
}

/// Offers what an edge makes of an item by assignments.
fn push_step<L: Ledger>(
    program: &Program,
    bases: &mut Vec<MatBasis>,
    items: &mut Items<Placed>,
    place: usize,
    e: usize,
    steps: &mut Steps<L>,
) -> Result<(), Memory>
    requires formed { IsWellFormed program.now }
    requires arena { IsArena program.now items.old bases.old.items }
    requires place { place < length items.old }
    requires edge { e < length program.now.edges }
    ensures { OnOk result (Gains program.now items.old items.new bases.old.items bases.new.items (IsStepOf program.now items.old place e)) }
{
    let edge = &program.edges.as_slice()[e];
    if edge.from != items.as_slice()[place].node {
        return Ok(());
    }
    match &edge.kind {
        Kind::Do(assigns) => push_choices(
            program,
            bases,
            items,
            place,
            e,
            edge.to,
            assigns.as_slice(),
            steps,
        ),
        Kind::Call { .. } => Ok(()),
    }
}

/// Offers what a call along an edge makes of two items.
fn push_pair<L: Ledger>(
    program: &Program,
    bases: &mut Vec<MatBasis>,
    items: &mut Items<Placed>,
    caller: usize,
    callee: usize,
    e: usize,
    steps: &mut Steps<L>,
) -> Result<(), Memory>
    requires formed { IsWellFormed program.now }
    requires arena { IsArena program.now items.old bases.old.items }
    requires caller { caller < length items.old }
    requires callee { callee < length items.old }
    requires edge { e < length program.now.edges }
    ensures { OnOk result (Gains program.now items.old items.new bases.old.items bases.new.items (IsCallOf program.now items.old caller callee e)) }
{
    let edge = &program.edges.as_slice()[e];
    if edge.from != items.as_slice()[caller].node {
        return Ok(());
    }
    match &edge.kind {
        Kind::Do(_) => Ok(()),
        Kind::Call {
            callee: proc,
            before,
        } => {
            if items.as_slice()[callee].node != program.procs.as_slice()[*proc as usize].exit {
                return Ok(());
            }
            let slots = slots_at(program, edge.from);
            let site = CallSite {
                caller,
                callee,
                edge: e,
                to: edge.to,
                slots,
            };
            push_calls(program, bases, items, site, before.as_slice(), steps)
        }
    }
}

/// Offers what a call makes of an item before it and those up to it at the callee's exit.
fn push_forward<L: Ledger>(
    program: &Program,
    bases: &mut Vec<MatBasis>,
    items: &mut Items<Placed>,
    place: usize,
    e: usize,
    steps: &mut Steps<L>,
) -> Result<(), Memory>
    requires formed { IsWellFormed program.now }
    requires arena { IsArena program.now items.old bases.old.items }
    requires place { place < length items.old }
    requires edge { e < length program.now.edges }
    ensures { OnOk result (Gains program.now items.old items.new bases.old.items bases.new.items (IsForward program.now items.old place (place + 1) e)) }
{
    if program.edges.as_slice()[e].from != items.as_slice()[place].node {
        return Ok(());
    }
    for j in 0..place {
        push_pair(program, bases, items, place, j, e, steps)?;
    }
    push_pair(program, bases, items, place, place, e, steps)
}

/// Offers what a call makes of an item at the callee's exit and those before it in the list.
fn push_back<L: Ledger>(
    program: &Program,
    bases: &mut Vec<MatBasis>,
    items: &mut Items<Placed>,
    place: usize,
    e: usize,
    steps: &mut Steps<L>,
) -> Result<(), Memory>
    requires formed { IsWellFormed program.now }
    requires arena { IsArena program.now items.old bases.old.items }
    requires place { place < length items.old }
    requires edge { e < length program.now.edges }
    ensures { OnOk result (Gains program.now items.old items.new bases.old.items bases.new.items (IsBack program.now items.old place place e)) }
{
    if !returns_from(program, e, items.as_slice()[place].node) {
        return Ok(());
    }
    for j in 0..place {
        push_pair(program, bases, items, j, place, e, steps)?;
    }
    Ok(())
}

/// Offers what an edge makes of an item.
fn push_along<L: Ledger>(
    program: &Program,
    bases: &mut Vec<MatBasis>,
    items: &mut Items<Placed>,
    place: usize,
    e: usize,
    steps: &mut Steps<L>,
) -> Result<(), Memory>
    requires formed { IsWellFormed program.now }
    requires arena { IsArena program.now items.old bases.old.items }
    requires place { place < length items.old }
    requires edge { e < length program.now.edges }
    ensures { OnOk result (Gains program.now items.old items.new bases.old.items bases.new.items (IsAlong program.now items.old place e)) }
{
    push_step(program, bases, items, place, e, steps)?;
    push_forward(program, bases, items, place, e, steps)?;
    push_back(program, bases, items, place, e, steps)
}

/// Offers what all edges make of an item.
pub(crate) fn push_item<L: Ledger>(
    program: &Program,
    bases: &mut Vec<MatBasis>,
    items: &mut Items<Placed>,
    place: usize,
    steps: &mut Steps<L>,
) -> Result<(), Memory>
    requires formed { IsWellFormed program.now }
    requires arena { IsArena program.now items.old bases.old.items }
    requires place { place < length items.old }
    ensures { OnOk result (Gains program.now items.old items.new bases.old.items bases.new.items (IsAlongBelow program.now items.old place (length program.now.edges))) }
{
    for e in 0..program.edges.len() {
        push_along(program, bases, items, place, e, steps)?;
    }
    Ok(())
}
