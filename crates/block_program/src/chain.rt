//! The chain of merged nodes behind a node.

ghost use Rattle.std.specs.Prelude.{◌≡◌, ◌<◌, ◌++◌, All, length, IfOk, OnOk};
ghost use Rattle.affine_prog.specs.Programs.{IsWellFormed};
ghost use Rattle.merged_heads.specs.Merges.{IsMergedTable};
ghost use Rattle.merged_heads.specs.Chains.{Chain};
ghost use Rattle.merged_heads.specs.BlockPrograms.{behind};
ghost use Rattle.block_program.specs.EdgesInto.{assigns_behind};

use affine_prog::{Assign, Kind, Program};
use merged_heads::{Merging, assigns_of};
use sqlite_items::Items;
use std::alloc::{AllocError, Global};

/// The head from which a chain leads to a node, and the chain's edges, the last one first.
pub(crate) fn behind(
    alloc: Global,
    program: &Program,
    merging: &Merging,
    node: u32,
) -> Result<(u32, Vec<u32>), AllocError>
    requires formed { IsWellFormed program.now }
    requires merged { IsMergedTable program.now merging.now }
    requires node { node < program.now.nodes }
    ensures leads { IfOk result (λ r. Chain program.now merging.now r.0 node (assigns_behind program.now.edges r.1.items)) }
    ensures edges { IfOk result (λ r. All (λ k. k < length program.now.edges) r.1.items) }
{
    let edges_into = merging.edges_into.as_slice();
    let mut path = Vec::new(alloc);
    let mut at = node;
    while let Some(k) = edges_into[at as usize] {
        path.push(k)?;
        at = program.edges.as_slice()[k as usize].from;
    }
    Ok((at, path))
}

/// Puts assignments at the end of a list.
fn push_all(made: &mut Items<Assign>, more: &[Assign]) -> Result<(), AllocError>
    ensures { OnOk result (made.new ≡ made.old ++ more.now) }
{
    for assign in more {
        made.push(*assign)?;
    }
    Ok(())
}

/// What the edges of a chain assign, the last edge given first, and then these assignments.
fn assigns_along(
    alloc: Global,
    program: &Program,
    path: &[u32],
    own: &[Assign],
) -> Result<Items<Assign>, AllocError>
    requires { All (λ k. k < length program.now.edges) path.now }
    ensures { IfOk result (λ made. made ≡ assigns_behind program.now.edges path.now ++ own.now) }
{
    let mut made = Items::new(alloc);
    let mut left = path.len();
    while left > 0 {
        left -= 1;
        let edge = &program.edges.as_slice()[path[left] as usize];
        push_all(&mut made, assigns_of(&edge.kind))?;
    }
    push_all(&mut made, own)?;
    Ok(made)
}

/// The kind with a chain's assignments before its own.
pub(crate) fn kind_behind(
    alloc: Global,
    program: &Program,
    path: &[u32],
    kind: &Kind,
) -> Result<Kind, AllocError>
    requires { All (λ k. k < length program.now.edges) path.now }
    ensures { IfOk result (λ made. made ≡ behind (assigns_behind program.now.edges path.now) kind.now) }
{
    let assigns = assigns_along(alloc, program, path, assigns_of(kind))?;
    match kind {
        Kind::Do(_) => Ok(Kind::Do(assigns)),
        Kind::Call { callee, .. } => Ok(Kind::Call {
            callee: *callee,
            before: assigns,
        }),
    }
}
