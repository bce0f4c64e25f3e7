//! The first item that breaks a rule.

ghost use Rattle.std.specs.Prelude.{◌≡◌, IfOk, length};
ghost use Rattle.affine_prog.specs.Programs.{IsWellFormed};
ghost use Rattle.proof_rules.specs.Rules.{rule_2};
ghost use Rattle.proof_verify.specs.Items.{step_rule, call_rule, entry_rule, nth_edge, IsFirst};

use crate::passes::{call_passes, entry_passes, opening_passes, step_passes};
use affine_prog::Program;
use lead_basis::{Basis, Memory};
use map_modules::MatBasis;
use std::alloc::Global;

/// The first procedure that breaks the rule of openings.
pub(crate) fn first_broken_opening(program: &Program, levels: &[MatBasis]) -> Option<usize>
    requires formed { IsWellFormed program.now }
    requires levels { length levels.now ≡ program.now.nodes }
    ensures { IsFirst (rule_2 program.now levels.now) (length program.now.procs) result }
{
    for p in 0..program.procs.len() {
        if !opening_passes(program, levels, p) {
            return Some(p);
        }
    }
    None
}

/// The first edge that breaks the rule of steps.
pub(crate) fn first_broken_step(
    alloc: Global,
    program: &Program,
    levels: &[MatBasis],
) -> Result<Option<usize>, Memory>
    requires formed { IsWellFormed program.now }
    requires levels { length levels.now ≡ program.now.nodes }
    ensures { IfOk result (IsFirst (λ k. step_rule program.now levels.now (nth_edge program.now k)) (length program.now.edges)) }
{
    for (k, edge) in program.edges.as_slice().iter().enumerate() {
        match step_passes(alloc, program, levels, edge) {
            Ok(true) => {}
            Ok(false) => return Ok(Some(k)),
            Err(memory) => return Err(memory),
        }
    }
    Ok(None)
}

/// The first edge that breaks the rule of calls.
pub(crate) fn first_broken_call(
    alloc: Global,
    program: &Program,
    levels: &[MatBasis],
) -> Result<Option<usize>, Memory>
    requires formed { IsWellFormed program.now }
    requires levels { length levels.now ≡ program.now.nodes }
    ensures { IfOk result (IsFirst (λ k. call_rule program.now levels.now (nth_edge program.now k)) (length program.now.edges)) }
{
    for (k, edge) in program.edges.as_slice().iter().enumerate() {
        match call_passes(alloc, program, levels, edge) {
            Ok(true) => {}
            Ok(false) => return Ok(Some(k)),
            Err(memory) => return Err(memory),
        }
    }
    Ok(None)
}

/// The first edge that breaks the rule of what calls hand over.
pub(crate) fn first_broken_entry(
    alloc: Global,
    program: &Program,
    levels: &[MatBasis],
    entries: &[Basis<17>],
) -> Result<Option<usize>, Memory>
    requires formed { IsWellFormed program.now }
    requires levels { length levels.now ≡ program.now.nodes }
    requires entries { length entries.now ≡ length program.now.procs }
    ensures { IfOk result (IsFirst (λ k. entry_rule program.now levels.now entries.now (nth_edge program.now k)) (length program.now.edges)) }
{
    for (k, edge) in program.edges.as_slice().iter().enumerate() {
        match entry_passes(alloc, program, levels, entries, edge) {
            Ok(true) => {}
            Ok(false) => return Ok(Some(k)),
            Err(memory) => return Err(memory),
        }
    }
    Ok(None)
}
