//! The heads of two programs, and an edge that stands for a chain.

ghost use Rattle.std.specs.Prelude.{◌≡◌, length};

use crate::small_programs::{EdgePlan, LOOP, Plan, program};
use affine_prog::{Proc, well_formed};
use block_program::{Blocks, contract, contract_merged};
use lead_basis::Memory;
use std::alloc::Global;

/// A start, a procedure with a call in its midst, and the procedure that it calls: 17 points and three exits.
const TWO_CALLS: Plan = Plan {
    width: 0,
    registers: 0,
    procs: &[
        Proc {
            entry: 0,
            exit: 17,
            slots: 0,
        },
        Proc {
            entry: 5,
            exit: 18,
            slots: 0,
        },
        Proc {
            entry: 15,
            exit: 19,
            slots: 0,
        },
    ],
    nodes: 20,
    owners: &[0, 0, 0, 0, 0, 1, 1, 1, 1, 1, 1, 1, 1, 1, 1, 2, 2, 0, 1, 2],
    edges: &[
        EdgePlan::Do(0, 1, &[]),
        EdgePlan::Do(1, 2, &[]),
        EdgePlan::Do(2, 3, &[]),
        EdgePlan::Do(5, 6, &[]),
        EdgePlan::Do(6, 7, &[]),
        EdgePlan::Do(7, 8, &[]),
        EdgePlan::Do(8, 9, &[]),
        EdgePlan::Do(10, 11, &[]),
        EdgePlan::Do(11, 12, &[]),
        EdgePlan::Do(12, 13, &[]),
        EdgePlan::Do(13, 14, &[]),
        EdgePlan::Do(14, 18, &[]),
        EdgePlan::Do(15, 16, &[]),
        EdgePlan::Do(16, 19, &[]),
        EdgePlan::Call(3, 4, &[], 1),
        EdgePlan::Call(9, 10, &[], 2),
    ],
    start: 0,
};

/// Whether the heads are these nodes, and no others.
fn has_heads(blocks: &Blocks, nodes: u32, heads: &[u32]) -> bool
    requires { length blocks.now.numbers ≡ nodes }
{
    for node in 0..nodes {
        if blocks.node_of(node).is_some() != heads.contains(&node) {
            return false;
        }
    }
    true
}

/// The edges of a block program, from node to node.
fn has_edges(blocks: &Blocks, ends: &[(u32, u32)]) -> bool {
    let edges = blocks.small().edges.as_slice();
    if edges.len() != ends.len() {
        return false;
    }
    for (edge, (from, to)) in edges.iter().zip(ends) {
        if edge.from != *from || edge.to != *to {
            return false;
        }
    }
    true
}

/// Whether these nodes are the heads, and these the edges between their numbers; and that many there are by the simple notion.
fn are(blocks: &Blocks, nodes: u32, heads: &[u32], ends: &[(u32, u32)], simple: u32) -> bool
    requires { length blocks.now.numbers ≡ nodes }
{
    has_heads(blocks, nodes, heads)
        && blocks.small().nodes as usize == heads.len()
        && has_edges(blocks, ends)
        && blocks.simple_heads() == simple
}

/// Whether these are the heads and edges by the simple notion.
fn contracts_to(
    alloc: Global,
    plan: &Plan,
    heads: &[u32],
    ends: &[(u32, u32)],
) -> Result<bool, Memory> {
    let Ok(program) = program(alloc, plan) else {
        return Err(Memory);
    };
    if !well_formed(&program) {
        return Ok(false);
    }
    let blocks = contract(alloc, &program)?;
    Ok(are(&blocks, program.nodes, heads, ends, blocks.small().nodes))
}

/// Whether these are the heads and edges where nodes are merged, and that many the heads by the simple notion.
fn merges_to(
    alloc: Global,
    plan: &Plan,
    heads: &[u32],
    ends: &[(u32, u32)],
    simple: u32,
) -> Result<bool, Memory> {
    let Ok(program) = program(alloc, plan) else {
        return Err(Memory);
    };
    if !well_formed(&program) {
        return Ok(false);
    }
    let blocks = contract_merged(alloc, &program)?;
    Ok(are(&blocks, program.nodes, heads, ends, simple))
}

#[test]
fn heads_are_entries_exits_and_ends_of_calls(rt: HostRuntime) {
    let heads = [0, 4, 5, 10, 15, 17, 18, 19];
    let ends = [(3, 6), (4, 7), (0, 1), (2, 3)];
    assert!(rt; contracts_to(rt.alloc(), &TWO_CALLS, &heads, &ends) == Ok(true));
    assert!(rt; merges_to(rt.alloc(), &TWO_CALLS, &heads, &ends, 8) == Ok(true));
}

#[test]
fn a_chain_is_one_edge(rt: HostRuntime) {
    let ends = [(0, 1), (1, 2), (1, 1)];
    assert!(rt; contracts_to(rt.alloc(), &LOOP, &[0, 1, 3, 4], &ends) == Ok(true));
    assert!(rt; merges_to(rt.alloc(), &LOOP, &[0, 1, 4], &[(0, 1), (1, 1)], 4) == Ok(true));
}
