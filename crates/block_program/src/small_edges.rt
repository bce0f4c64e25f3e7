//! The edges of the block program.

ghost use Rattle.std.specs.Prelude.{◌≡◌, ◌<◌, All, length, slice_index, slice_index_or, unwrap_or, None, IfOk};
ghost use Rattle.std.specs.List.{AllZip};
ghost use Rattle.affine_prog.specs.Programs.{IsWellFormed};
ghost use Rattle.merged_heads.specs.Merges.{IsMergedTable};
ghost use Rattle.merged_heads.specs.BlockPrograms.{IsBlockEdge, edges_to, NumbersHeads};
ghost use Rattle.block_program.specs.Numbers.{AreNumbersBelow, IsNumber};

use crate::chain::{behind, kind_behind};
use affine_prog::{Edge, Program};
use merged_heads::Merging;
use sqlite_items::Items;
use std::alloc::{AllocError, Global};

/// The number of a head.
pub(crate) fn number_of(numbers: &[Option<u32>], head: u32) -> u32
    requires { head < length numbers.now }
    ensures { result ≡ unwrap_or (slice_index_or numbers.now head None) 0 }
{
    numbers[head as usize].unwrap_or(0)
}

/// The block edge of an edge to head number `to`.
fn block_edge(
    alloc: Global,
    program: &Program,
    heads: &[u32],
    merging: &Merging,
    numbers: &[Option<u32>],
    edge: &Edge,
    to: u32,
) -> Result<Edge, AllocError>
    requires formed { IsWellFormed program.now }
    requires merged { IsMergedTable program.now merging.now }
    requires numbers { AreNumbersBelow merging.now program.now.nodes heads.now numbers.now }
    requires from { edge.now.from < program.now.nodes }
    requires to { IsNumber heads.now edge.now.to to }
    ensures { IfOk result (λ b. IsBlockEdge program.now merging.now heads.now edge.now b) }
{
    let (head, path) = behind(alloc, program, merging, edge.from)?;
    let kind = kind_behind(alloc, program, path.as_slice(), &edge.kind)?;
    let from = number_of(numbers, head);
    Ok(Edge { from, to, kind })
}

/// The edges of the block program, in one pass over those of the program.
pub(crate) fn block_edges(
    alloc: Global,
    program: &Program,
    heads: &[u32],
    merging: &Merging,
    numbers: &[Option<u32>],
) -> Result<Items<Edge>, AllocError>
    requires formed { IsWellFormed program.now }
    requires heads { NumbersHeads program.now merging.now heads.now }
    requires merged { IsMergedTable program.now merging.now }
    requires numbers { AreNumbersBelow merging.now program.now.nodes heads.now numbers.now }
    ensures { IfOk result (λ edges. AllZip (IsBlockEdge program.now merging.now heads.now) (edges_to heads.now program.now.edges) edges) }
{
    let mut edges = Items::new(alloc);
    for edge in program.edges.as_slice() {
        if let Some(to) = numbers[edge.to as usize] {
            let made = block_edge(alloc, program, heads, merging, numbers, edge, to)?;
            edges.push(made)?;
        }
    }
    Ok(edges)
}
