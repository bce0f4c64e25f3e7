//! The states at a node: those at a head come from the block program, those at a merged node are pushed along the edge from
//! its parent.

ghost use Rattle.std.specs.Prelude.{◌≡◌, ℕ, ◌+◌, ◌*◌, ◌<◌, ◌≤◌, All, Contains, None, Some, length, sum_by, IfOk};
ghost use Rattle.row_modules.specs.Bases.{IsLeadingBasis};
ghost use Rattle.row_modules.specs.Modules.{SameModule};
ghost use Rattle.affine_prog.specs.Programs.{IsWellFormed};
ghost use Rattle.affine_prog.specs.Spans.{IsStateAt, AreReached};
ghost use Rattle.block_program.specs.Numbers.{AreBlocks, number_of};
ghost use Rattle.analyser_core.specs.States.{HasStates, states_by, merged_part, AreKept};

use affine_prog::Program;
use block_program::{Blocks, push};
use lead_basis::{Basis, Memory, Steps};
use reach_modules::Reach;
use std::alloc::Global;
use std::sync::ledger::Ledger;

/// A basis of the states at a node: the block program's at a head, and the one that was made at a merged node.
pub fn states_at<'a>(
    blocks: &Blocks,
    reached: &'a Reach,
    made: &'a Basis<17>,
    node: u32,
) -> &'a Basis<17>
    requires node { node < length blocks.now.numbers }
    requires head { (i : ℕ) → number_of blocks.now node ≡ Some i → i < length reached.now }
    ensures { result.now ≡ states_by reached.now made.now (number_of blocks.now node) }
{
    match blocks.node_of(node) {
        Some(head) => reached.at(head),
        None => made,
    }
}

// A basis of the states at a merged node, from those at its parent.
fn push_into<L: Ledger>(
    alloc: Global,
    program: &Program,
    blocks: &Blocks,
    reached: &Reach,
    kept: &[Basis<17>],
    node: u32,
    steps: &mut Steps<L>,
) -> Result<Basis<17>, Memory>
    requires formed { IsWellFormed program.now }
    requires blocks { AreBlocks program.now blocks.now }
    requires reached { AreReached blocks.now.small reached.now }
    requires kept { AreKept program.now blocks.now.merging node kept.now }
    requires node { node < program.now.nodes }
    requires is_merged { number_of blocks.now node ≡ None }
    ensures exact { IfOk result (λ states. HasStates program.now node states) }
    ensures never_falls { steps.old ≤ steps.new }
    ensures counts_no_more { steps.new ≤ steps.old + 64 * (program.now.width + 1) }
    ensures counts_rows { IfOk result (λ states. steps.old + length states ≤ steps.new) }
{
    let edge = &program.edges.as_slice()[blocks.edge_into(node) as usize];
    let before = states_at(blocks, reached, &kept[edge.from as usize], edge.from);
    before.known();
    push(alloc, edge, before, steps)
}

/// A basis of the states at a node where it is merged, from those that are kept, and one without rows where it is a head.
pub fn next_states<L: Ledger>(
    alloc: Global,
    program: &Program,
    blocks: &Blocks,
    reached: &Reach,
    kept: &[Basis<17>],
    node: u32,
    steps: &mut Steps<L>,
) -> Result<Basis<17>, Memory>
    requires formed { IsWellFormed program.now }
    requires blocks { AreBlocks program.now blocks.now }
    requires reached { AreReached blocks.now.small reached.now }
    requires kept { AreKept program.now blocks.now.merging node kept.now }
    requires node { node < program.now.nodes }
    ensures exact { IfOk result (λ states. number_of blocks.now node ≡ None → HasStates program.now node states) }
    ensures never_falls { steps.old ≤ steps.new }
    ensures counts_no_more { steps.new ≤ steps.old + 64 * (program.now.width + 1) * merged_part (number_of blocks.now node) }
    ensures counts_rows { IfOk result (λ states. steps.old + length states ≤ steps.new) }
{
    match blocks.node_of(node) {
        Some(_) => Ok(Basis::new(alloc)),
        None => push_into(alloc, program, blocks, reached, kept, node, steps),
    }
}
