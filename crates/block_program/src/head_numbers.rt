//! The heads and their numbers.

ghost use Rattle.std.specs.Prelude.{◌≡◌, ◌^◌, ◌<◌, length, IfOk};
ghost use Rattle.merged_heads.specs.BlockPrograms.{NumbersHeads};
ghost use Rattle.block_program.specs.Numbers.{AreNumbersBelow};

use affine_prog::Program;
use merged_heads::Merging;
use std::alloc::{AllocError, Global};

/// The heads in their order, and for each node its number among them.
pub(crate) fn number_heads(
    alloc: Global,
    program: &Program,
    merging: &Merging,
) -> Result<(Vec<u32>, Vec<Option<u32>>), AllocError>
    requires { length merging.now.edges_into ≡ program.now.nodes }
    ensures heads { IfOk result (λ r. NumbersHeads program.now merging.now r.0.items) }
    ensures numbers { IfOk result (λ r. AreNumbersBelow merging.now program.now.nodes r.0.items r.1.items) }
    ensures count { IfOk result (λ r. length r.0.items < 2 ^ 32) }
{
    let edges_into = merging.edges_into.as_slice();
    let mut heads = Vec::new(alloc);
    let mut numbers = Vec::new(alloc);
    for node in 0..program.nodes {
        match edges_into[node as usize] {
            Some(_) => numbers.push(None)?,
            None => {
                numbers.push(Some(heads.len() as u32))?;
                heads.push(node)?;
            }
        }
    }
    Ok((heads, numbers))
}
