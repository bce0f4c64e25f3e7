//! Where the edges that leave each node are found.

ghost use Rattle.std.specs.Prelude.{◌≡◌, [], IfOk, replicate};
ghost use Rattle.affine_prog.specs.Programs.{IsWellFormed};
ghost use Rattle.row_engine.specs.Tables.{AreOut};

use affine_prog::Program;
use lead_basis::Memory;
use sqlite_items::Items;
use std::alloc::Global;

/// An empty list for each node.
pub fn empty_lists(alloc: Global, nodes: u32) -> Result<Vec<Items<u32>>, Memory>
    ensures { IfOk result (λ lists. lists.items ≡ replicate nodes []) }
{
    let mut lists = Vec::new(alloc);
    for _ in 0..nodes {
        match lists.push(Items::new(alloc)) {
            Ok(()) => {}
            Err(_) => return Err(Memory),
        }
    }
    Ok(lists)
}

/// For each node the numbers of the edges that leave it.
pub fn edges_out(alloc: Global, program: &Program) -> Result<Vec<Items<u32>>, Memory>
    requires { IsWellFormed program.now }
    ensures { IfOk result (λ out. AreOut program.now out.items) }
{
    let mut out = empty_lists(alloc, program.nodes)?;
    for k in 0..program.edges.len() {
        let from = program.edges.as_slice()[k].from;
        match out[from as usize].push(k as u32) {
            Ok(()) => {}
            Err(_) => return Err(Memory),
        }
    }
    Ok(out)
}
