//! The verdict: the first item that is broken.

ghost use Rattle.std.specs.Prelude.{◌≡◌, ◌<◌, ◌↔◌, All, None, length, IfOk, IsTrue};
ghost use Rattle.affine_prog.specs.Programs.{IsWellFormed};
ghost use Rattle.block_program.specs.Numbers.{AreBlocks};
ghost use Rattle.proof_rules.specs.Rules.{rule_5_first};
ghost use Rattle.proof_verify.specs.Verdicts.{sheet, ClaimPasses, nth_claim, IsVerdict, ClaimsHoldAt};

use crate::claims::first_broken_claim;
use crate::first::{
    first_broken_call, first_broken_entry, first_broken_opening, first_broken_step,
};
use crate::known::known_bases;
use crate::lookups::basis_at;
use crate::points::states_of;
use crate::starts::starts_into;
use crate::{Breach, Claim};
use affine_prog::Program;
use block_program::Blocks;
use lead_basis::{Basis, Memory, Steps};
use map_modules::MatBasis;
use merged_heads::{block_programs_are_formed, open_paths_are_kept};
use std::alloc::Global;
use std::sync::ledger::Ledger;

// Whether the starts pass.
fn starts_pass(program: &Program, entries: &[Basis<17>]) -> bool
    requires formed { IsWellFormed program.now }
    requires entries { length entries.now ≡ length program.now.procs }
    ensures { IsTrue result ↔ rule_5_first program.now entries.now }
{
    starts_into(program.registers, basis_at(entries, program.start as usize))
}

// The first item of the rules for heads and procedures that is broken.
fn first_of_rules(
    alloc: Global,
    program: &Program,
    levels: &[MatBasis],
    entries: &[Basis<17>],
) -> Result<Option<Breach>, Memory>
    requires formed { IsWellFormed program.now }
    requires levels { length levels.now ≡ program.now.nodes }
    requires entries { length entries.now ≡ length program.now.procs }
    ensures { IfOk result (IsVerdict (sheet program.now levels.now entries.now) 0 (λ k. ⊥)) }
{
    if let Some(p) = first_broken_opening(program, levels) {
        return Ok(Some(Breach::Opening(p)));
    }
    if let Some(k) = first_broken_step(alloc, program, levels)? {
        return Ok(Some(Breach::Step(k)));
    }
    if let Some(k) = first_broken_call(alloc, program, levels)? {
        return Ok(Some(Breach::Call(k)));
    }
    if !starts_pass(program, entries) {
        return Ok(Some(Breach::Start));
    }
    if let Some(k) = first_broken_entry(alloc, program, levels, entries)? {
        return Ok(Some(Breach::Entry(k)));
    }
    Ok(None)
}

/// The first item that is broken, in the order of the rules, and of each rule's items by their numbers; nothing where all
/// pass. Where nothing is broken, each claimed row that is 0 outside what is visible at its node holds there: it gives 0 on
/// the state of every open path to the node, from every start.
pub fn first_breach<L: Ledger>(
    alloc: Global,
    program: &Program,
    blocks: &Blocks,
    levels: &[MatBasis],
    entries: &[Basis<17>],
    claims: &[Claim],
    steps: &mut Steps<L>,
) -> Result<Option<Breach>, Memory>
    requires formed { IsWellFormed program.now }
    requires blocks { AreBlocks program.now blocks.now }
    requires levels { length levels.now ≡ blocks.now.small.nodes }
    requires entries { length entries.now ≡ length program.now.procs }
    requires nodes { All (λ c. c.node < program.now.nodes) claims.now }
    ensures exact { IfOk result (IsVerdict (sheet blocks.now.small levels.now entries.now) (length claims.now) (λ k. ClaimPasses program.now blocks.now levels.now entries.now (nth_claim claims.now k))) }
    ensures sound { IfOk result (λ first. first ≡ None → ClaimsHoldAt program.now claims.now) }
{
    block_programs_are_formed();
    open_paths_are_kept();
    known_bases(levels);
    known_bases(entries);
    if let Some(breach) = first_of_rules(alloc, blocks.small(), levels, entries)? {
        return Ok(Some(breach));
    }
    let states = states_of(alloc, program, blocks, levels, entries, steps)?;
    match first_broken_claim(program, blocks, levels, entries, &states, claims) {
        Some(k) => Ok(Some(Breach::Claimed(k))),
        None => Ok(None),
    }
}
