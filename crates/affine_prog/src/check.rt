//! The test that a program is well formed.

ghost use Rattle.std.specs.Prelude.{◌≡◌, ℕ, ◌<◌, ◌≤◌, ◌^◌, ◌↔◌, IsTrue, All, AllPairs, length, true};
ghost use Rattle.row_modules.specs.Positions.{has, with_constant, IsZeroOutside};
ghost use Rattle.affine_prog.specs.Programs.{owner_of, visible_in, position_sets, AreDisjoint, IsAssignIn, OwnsItsEnds, IsKindIn, IsEdgeOf, IsWellFormed};

use crate::{Assign, Edge, Kind, Proc, Program};
use word_rows::Row;

/// Whether a program is well formed. All of these hold then:
/// - the width is at most 16, and the registers and the slots of all procedures are disjoint sets of positions below it;
/// - there is one owner for each node, each owner, callee and the start is a procedure, and each end of an edge a node;
/// - each procedure owns its entry and its exit, and both ends of an edge have one owner;
/// - an edge assigns registers and slots of its owner, and its rows are 0 at every other position below 16;
/// - there are fewer than 2^32 edges.
pub fn well_formed(program: &Program) -> bool
    ensures { IsTrue result ↔ IsWellFormed program.now }
{
    program.width <= 16
        && are_below_width(program)
        && are_disjoint(program)
        && program.owners.len() == program.nodes as usize
        && are_owned(program)
        && (program.start as usize) < program.procs.len()
        && own_their_ends(program)
        && program.edges.len() < 1 << 32
        && are_edges(program)
}

impl Program {
    /// The number of the procedure that owns the node.
    pub fn proc_of(&self, node: u32) -> u32
        requires formed { IsWellFormed self.now }
        requires node { node < self.now.nodes }
        ensures { result ≡ owner_of self.now node }
    {
        self.owners.as_slice()[node as usize]
    }
}

/// Whether a set has this position.
fn has(set: u16, i: u8) -> bool
    ensures { IsTrue result ↔ IsTrue (has set i) }
{
    i < 16 && (set >> i) & 1 == 1
}

/// Whether each position of a set is below the width.
fn is_below(set: u16, width: u32) -> bool
    requires { width ≤ 16 }
    ensures { IsTrue result ↔ (set < 2 ^ width) }
{
    u32::from(set) < 1 << width
}

/// Whether the slots of each procedure are below the width.
fn are_slots_below(procs: &[Proc], width: u32) -> bool
    requires { width ≤ 16 }
    ensures { IsTrue result ↔ All (λ proc. proc.slots < 2 ^ width) procs.now }
{
    procs.iter().all(|proc| is_below(proc.slots, width))
}

/// Whether the registers and all slots are below the width.
fn are_below_width(program: &Program) -> bool
    requires { program.now.width ≤ 16 }
    ensures { IsTrue result ↔ All (λ s. s < 2 ^ program.now.width) (position_sets program.now) }
{
    is_below(program.registers, program.width)
        && are_slots_below(program.procs.as_slice(), program.width)
}

/// Whether no position is a register and a slot, or a slot of two procedures.
fn are_disjoint(program: &Program) -> bool
    ensures { IsTrue result ↔ AllPairs AreDisjoint (position_sets program.now) }
{
    let mut taken = program.registers;
    for proc in program.procs.as_slice() {
        if taken & proc.slots != 0 {
            return false;
        }
        taken |= proc.slots;
    }
    true
}

/// Whether each owner is a procedure.
fn are_owned(program: &Program) -> bool
    ensures { IsTrue result ↔ All (λ p. p < length program.now.procs) program.now.owners }
{
    program
        .owners
        .as_slice()
        .iter()
        .all(|p| (*p as usize) < program.procs.len())
}

/// Whether the node is one, and the procedure owns it.
fn owns(program: &Program, p: usize, node: u32) -> bool
    requires { length program.now.owners ≡ program.now.nodes }
    ensures { IsTrue result ↔ ((node < program.now.nodes) × (owner_of program.now node ≡ p)) }
{
    program
        .owners
        .get(node as usize)
        .is_some_and(|owner| *owner as usize == p)
}

/// Whether the procedure owns its entry and its exit.
fn owns_its_ends(program: &Program, p: usize) -> bool
    requires owners { length program.now.owners ≡ program.now.nodes }
    requires proc { p < length program.now.procs }
    ensures { IsTrue result ↔ OwnsItsEnds program.now p }
{
    let proc = program.procs.as_slice()[p];
    owns(program, p, proc.entry) && owns(program, p, proc.exit)
}

/// Whether each procedure owns its entry and its exit.
fn own_their_ends(program: &Program) -> bool
    requires { length program.now.owners ≡ program.now.nodes }
    ensures { IsTrue result ↔ ((p : ℕ) → p < length program.now.procs → OwnsItsEnds program.now p) }
{
    for p in 0..program.procs.len() {
        if !owns_its_ends(program, p) {
            return false;
        }
    }
    true
}

/// Whether the row is 0 at each position outside the set and the constant's.
fn is_zero_outside(set: u16, row: &Row<17>) -> bool
    ensures { IsTrue result ↔ IsZeroOutside (with_constant set) row.now }
{
    row.known();
    for k in 0..16u8 {
        if !has(set, k) && row.get(k as usize) != 0 {
            return false;
        }
    }
    true
}

/// Whether an assignment writes and reads positions of the set alone.
fn is_assign_in(set: u16, assign: &Assign) -> bool
    ensures { IsTrue result ↔ IsAssignIn set assign.now }
{
    match assign {
        Assign::Affine(i, row) => has(set, *i) && is_zero_outside(set, row),
        Assign::Any(i) => has(set, *i),
    }
}

/// Whether each assignment of a list does.
fn are_assigns_in(set: u16, assigns: &[Assign]) -> bool
    ensures { IsTrue result ↔ All (IsAssignIn set) assigns.now }
{
    assigns.iter().all(|assign| is_assign_in(set, assign))
}

/// Whether an edge of the procedure p may be of this kind.
fn is_kind_in(program: &Program, p: u32, kind: &Kind) -> bool
    requires { p < length program.now.procs }
    ensures { IsTrue result ↔ IsKindIn program.now p kind.now }
{
    let visible = program.registers | program.procs.as_slice()[p as usize].slots;
    match kind {
        Kind::Do(assigns) => are_assigns_in(visible, assigns.as_slice()),
        Kind::Call { callee, before } => {
            (*callee as usize) < program.procs.len() && are_assigns_in(visible, before.as_slice())
        }
    }
}

/// Whether an edge goes between two nodes of one procedure, and may be of its kind there.
fn is_edge(program: &Program, edge: &Edge) -> bool
    requires owners { length program.now.owners ≡ program.now.nodes }
    requires owned { All (λ p. p < length program.now.procs) program.now.owners }
    ensures { IsTrue result ↔ IsEdgeOf program.now edge.now }
{
    if edge.from >= program.nodes || edge.to >= program.nodes {
        return false;
    }
    let owners = program.owners.as_slice();
    let owner = owners[edge.from as usize];
    owner == owners[edge.to as usize] && is_kind_in(program, owner, &edge.kind)
}

/// Whether each edge does.
fn are_edges(program: &Program) -> bool
    requires owners { length program.now.owners ≡ program.now.nodes }
    requires owned { All (λ p. p < length program.now.procs) program.now.owners }
    ensures { IsTrue result ↔ All (IsEdgeOf program.now) program.now.edges }
{
    program
        .edges
        .as_slice()
        .iter()
        .all(|edge| is_edge(program, edge))
}
