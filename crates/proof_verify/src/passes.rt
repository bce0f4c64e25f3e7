//! The rules, tried for one procedure or one edge.

ghost use Rattle.std.specs.Prelude.{◌≡◌, ◌<◌, ◌↔◌, All, IfOk, IsTrue, Contains, length};
ghost use Rattle.affine_prog.specs.Assignments.{position_of};
ghost use Rattle.affine_prog.specs.Programs.{IsWellFormed};
ghost use Rattle.proof_rules.specs.Rules.{rule_2, rule_3, rule_4, rule_5};
ghost use Rattle.proof_verify.specs.Items.{step_rule, call_rule, entry_rule};

use crate::edges::{calls_into, enters_into, steps_into};
use crate::lookups::{basis_at, entry_of, exit_of, owner_of, slots_of};
use crate::openings::opens_into;
use affine_prog::{Assign, Edge, Kind, Program};
use lead_basis::{Basis, Memory};
use map_modules::MatBasis;
use std::alloc::Global;

/// Whether a procedure passes the rule of openings.
pub(crate) fn opening_passes(program: &Program, levels: &[MatBasis], p: usize) -> bool
    requires formed { IsWellFormed program.now }
    requires levels { length levels.now ≡ program.now.nodes }
    requires proc { p < length program.now.procs }
    ensures { IsTrue result ↔ rule_2 program.now levels.now p }
{
    let basis = basis_at(levels, entry_of(program, p));
    opens_into(program.registers, slots_of(program, p), basis)
}

// The rule of steps for assignments between two nodes.
fn steps_pass(
    alloc: Global,
    program: &Program,
    levels: &[MatBasis],
    from: usize,
    to: usize,
    assigns: &[Assign],
) -> Result<bool, Memory>
    requires from { from < length levels.now }
    requires to { to < length levels.now }
    requires placed { All (λ a. position_of a < 16) assigns.now }
    ensures { IfOk result (λ passes. IsTrue passes ↔ rule_3 program.now levels.now from to assigns.now) }
{
    let rows = basis_at(levels, from).rows();
    steps_into(alloc, assigns, rows, basis_at(levels, to))
}

/// Whether an edge passes the rule of steps.
pub(crate) fn step_passes(
    alloc: Global,
    program: &Program,
    levels: &[MatBasis],
    edge: &Edge,
) -> Result<bool, Memory>
    requires formed { IsWellFormed program.now }
    requires levels { length levels.now ≡ program.now.nodes }
    requires edge { Contains program.now.edges edge.now }
    ensures { IfOk result (λ passes. IsTrue passes ↔ step_rule program.now levels.now edge.now) }
{
    match &edge.kind {
        Kind::Do(assigns) => steps_pass(
            alloc,
            program,
            levels,
            edge.from as usize,
            edge.to as usize,
            assigns.as_slice(),
        ),
        Kind::Call { .. } => Ok(true),
    }
}

// The rule of calls for a call between two nodes.
fn calls_pass(
    alloc: Global,
    program: &Program,
    levels: &[MatBasis],
    from: usize,
    to: usize,
    callee: usize,
    before: &[Assign],
) -> Result<bool, Memory>
    requires formed { IsWellFormed program.now }
    requires levels { length levels.now ≡ program.now.nodes }
    requires from { from < program.now.nodes }
    requires to { to < program.now.nodes }
    requires callee { callee < length program.now.procs }
    requires placed { All (λ a. position_of a < 16) before.now }
    ensures { IfOk result (λ passes. IsTrue passes ↔ rule_4 program.now levels.now from to callee before.now) }
{
    let slots = slots_of(program, owner_of(program, from));
    let rows = basis_at(levels, from).rows();
    let callees = basis_at(levels, exit_of(program, callee)).rows();
    let basis = basis_at(levels, to);
    calls_into(
        alloc,
        program.registers,
        slots,
        before,
        rows,
        callees,
        basis,
    )
}

/// Whether an edge passes the rule of calls.
pub(crate) fn call_passes(
    alloc: Global,
    program: &Program,
    levels: &[MatBasis],
    edge: &Edge,
) -> Result<bool, Memory>
    requires formed { IsWellFormed program.now }
    requires levels { length levels.now ≡ program.now.nodes }
    requires edge { Contains program.now.edges edge.now }
    ensures { IfOk result (λ passes. IsTrue passes ↔ call_rule program.now levels.now edge.now) }
{
    match &edge.kind {
        Kind::Do(_) => Ok(true),
        Kind::Call { callee, before } => calls_pass(
            alloc,
            program,
            levels,
            edge.from as usize,
            edge.to as usize,
            *callee as usize,
            before.as_slice(),
        ),
    }
}

// The rule of what calls hand over, for a call from a node.
fn enters_pass(
    alloc: Global,
    program: &Program,
    levels: &[MatBasis],
    entries: &[Basis<17>],
    from: usize,
    callee: usize,
    before: &[Assign],
) -> Result<bool, Memory>
    requires formed { IsWellFormed program.now }
    requires levels { length levels.now ≡ program.now.nodes }
    requires entries { length entries.now ≡ length program.now.procs }
    requires from { from < program.now.nodes }
    requires callee { callee < length program.now.procs }
    requires placed { All (λ a. position_of a < 16) before.now }
    ensures { IfOk result (λ passes. IsTrue passes ↔ rule_5 program.now levels.now entries.now from callee before.now) }
{
    let rows = basis_at(levels, from).rows();
    let states = basis_at(entries, owner_of(program, from)).rows();
    enters_into(alloc, before, rows, states, basis_at(entries, callee))
}

/// Whether an edge passes the rule of what calls hand over.
pub(crate) fn entry_passes(
    alloc: Global,
    program: &Program,
    levels: &[MatBasis],
    entries: &[Basis<17>],
    edge: &Edge,
) -> Result<bool, Memory>
    requires formed { IsWellFormed program.now }
    requires levels { length levels.now ≡ program.now.nodes }
    requires entries { length entries.now ≡ length program.now.procs }
    requires edge { Contains program.now.edges edge.now }
    ensures { IfOk result (λ passes. IsTrue passes ↔ entry_rule program.now levels.now entries.now edge.now) }
{
    match &edge.kind {
        Kind::Do(_) => Ok(true),
        Kind::Call { callee, before } => enters_pass(
            alloc,
            program,
            levels,
            entries,
            edge.from as usize,
            *callee as usize,
            before.as_slice(),
        ),
    }
}
