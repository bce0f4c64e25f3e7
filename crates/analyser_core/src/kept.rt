//! The states that are kept for the nodes to come.

ghost use Rattle.std.specs.Prelude.{◌≡◌, ℕ, ◌+◌, ◌++◌, ◌∷◌, ◌<◌, [], None, Some, IsSome, length, slice_index_or, slice_set, IfOk, OnOk, MatchOption};
ghost use Rattle.affine_prog.specs.Programs.{IsWellFormed};
ghost use Rattle.block_program.specs.Numbers.{AreBlocks, number_of};
ghost use Rattle.analyser_core.specs.States.{IsMerged, Follows, HasStates, AreKept, AreLast, DropsBefore};

use affine_prog::Program;
use block_program::Blocks;
use lead_basis::{Basis, Memory};
use std::alloc::Global;

/// The parent of a merged node.
fn node_before(program: &Program, blocks: &Blocks, node: u32) -> Option<u32>
    requires formed { IsWellFormed program.now }
    requires blocks { AreBlocks program.now blocks.now }
    requires node { node < program.now.nodes }
    ensures { MatchOption result (IsMerged blocks.now.merging node → ⊥) (λ from. Follows program.now blocks.now.merging from node) }
{
    if blocks.node_of(node).is_some() {
        return None;
    }
    let edge = &program.edges.as_slice()[blocks.edge_into(node) as usize];
    Some(edge.from)
}

// Marks that a node follows its parent, after all that were marked before.
fn mark_before(program: &Program, blocks: &Blocks, last: &mut Vec<Option<u32>>, node: u32)
    requires formed { IsWellFormed program.now }
    requires blocks { AreBlocks program.now blocks.now }
    requires node { node < program.now.nodes }
    requires marked { AreLast program.now blocks.now.merging node last.now.items }
    ensures { AreLast program.now blocks.now.merging (node + 1) last.new.items }
{
    if let Some(from) = node_before(program, blocks, node) {
        put_last(last, from, node);
    }
}

fn put_last(last: &mut Vec<Option<u32>>, at: u32, node: u32)
    requires { at < length last.now.items }
    ensures { last.new.items ≡ slice_set last.old.items at (Some node) }
{
    last[at as usize] = Some(node);
}

/// For each node the last merged node of which it is the parent.
pub fn last_followers(
    alloc: Global,
    program: &Program,
    blocks: &Blocks,
) -> Result<Vec<Option<u32>>, Memory>
    requires formed { IsWellFormed program.now }
    requires blocks { AreBlocks program.now blocks.now }
    ensures { IfOk result (λ last. AreLast program.now blocks.now.merging program.now.nodes last.items) }
{
    let mut last = match vec![in alloc; None; program.nodes as usize] {
        Ok(last) => last,
        Err(_) => return Err(Memory),
    };
    for node in 0..program.nodes {
        mark_before(program, blocks, &mut last, node);
    }
    Ok(last)
}

// Drops the states of the parent of a node, if that is the last one that follows it.
fn drop_before(
    alloc: Global,
    program: &Program,
    blocks: &Blocks,
    last: &[Option<u32>],
    kept: &mut Vec<Basis<17>>,
    node: u32,
)
    requires formed { IsWellFormed program.now }
    requires blocks { AreBlocks program.now blocks.now }
    requires last { AreLast program.now blocks.now.merging program.now.nodes last.now }
    requires node { node < program.now.nodes }
    requires long { length kept.now.items ≡ node }
    ensures { DropsBefore program.now blocks.now.merging node kept.old.items kept.new.items }
{
    if let Some(from) = node_before(program, blocks, node) {
        if last[from as usize] == Some(node) {
            empty_at(alloc, kept, from);
        }
    }
}

fn empty_at(alloc: Global, kept: &mut Vec<Basis<17>>, at: u32)
    requires { at < length kept.now.items }
    ensures { kept.new.items ≡ slice_set kept.old.items at [] }
{
    kept[at as usize] = Basis::new(alloc);
}

// The states that were made for a node, if a node follows it.
fn wanted(alloc: Global, last: &[Option<u32>], made: Basis<17>, node: u32) -> Basis<17>
    requires { node < length last.now }
    ensures { IsSome (slice_index_or last.now node None) → result ≡ made }
{
    if last[node as usize].is_some() {
        made
    } else {
        Basis::new(alloc)
    }
}

/// Keeps the states that were made for a node, if a node follows it, and drops those of its parent behind the last node that
/// follows that one.
pub fn keep(
    alloc: Global,
    program: &Program,
    blocks: &Blocks,
    last: &[Option<u32>],
    kept: &mut Vec<Basis<17>>,
    made: Basis<17>,
    node: u32,
) -> Result<(), Memory>
    requires formed { IsWellFormed program.now }
    requires blocks { AreBlocks program.now blocks.now }
    requires last { AreLast program.now blocks.now.merging program.now.nodes last.now }
    requires kept { AreKept program.now blocks.now.merging node kept.now.items }
    requires made { number_of blocks.now node ≡ None → HasStates program.now node made }
    requires node { node < program.now.nodes }
    ensures { OnOk result (AreKept program.now blocks.now.merging (node + 1) kept.new.items) }
{
    drop_before(alloc, program, blocks, last, kept, node);
    push(kept, wanted(alloc, last, made, node))?;
    Ok(())
}

fn push(kept: &mut Vec<Basis<17>>, states: Basis<17>) -> Result<(), Memory>
    ensures { OnOk result (kept.new.items ≡ kept.old.items ++ states ∷ []) }
{
    match kept.push(states) {
        Ok(()) => Ok(()),
        Err(_) => Err(Memory),
    }
}
