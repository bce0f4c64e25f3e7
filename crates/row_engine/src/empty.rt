//! Bases and marks to begin with.

ghost use Rattle.std.specs.Prelude.{◌≡◌, ◌≤◌, [], IfOk, replicate};

use lead_basis::{Basis, Memory};
use std::alloc::Global;
use word_rows::Row;

/// A basis without rows for each node.
pub(crate) fn empty_bases<const N: usize>(
    alloc: Global,
    nodes: u32,
) -> Result<Vec<Basis<N>>, Memory>
    requires some { 1 ≤ N }
    requires within { N ≤ 512 }
    ensures { IfOk result (λ bases. bases.items ≡ replicate nodes []) }
{
    let mut bases = Vec::new(alloc);
    for _ in 0..nodes {
        match bases.push(Basis::new(alloc)) {
            Ok(()) => {}
            Err(_) => return Err(Memory),
        }
    }
    Ok(bases)
}

/// Marks of no rows for each node.
pub(crate) fn empty_marks<const N: usize>(alloc: Global, nodes: u32) -> Result<Vec<Row<N>>, Memory>
    requires some { 1 ≤ N }
    requires within { N ≤ 512 }
    ensures { IfOk result (λ marks. marks.items ≡ replicate nodes (replicate N 0)) }
{
    let mut marks = Vec::new(alloc);
    for _ in 0..nodes {
        match marks.push(Row::zero()) {
            Ok(()) => {}
            Err(_) => return Err(Memory),
        }
    }
    Ok(marks)
}
