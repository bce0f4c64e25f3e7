//! The loop over placed maps, until they are closed.

ghost use Rattle.std.specs.Prelude.{◌≡◌, ◌≤◌, [], IfOk, replicate};
ghost use Rattle.affine_prog.specs.Programs.{IsWellFormed};
ghost use Rattle.refute_path.specs.Tags.{AreMade, IsClosed};

use crate::Placed;
use crate::openings::open_all;
use crate::turns::push_item;
use affine_prog::Program;
use lead_basis::{Basis, Memory, Steps};
use sqlite_items::Items;
use std::alloc::Global;
use std::sync::ledger::Ledger;

/// So many bases without rows.
pub(crate) fn empty_bases<const N: usize>(
    alloc: Global,
    count: usize,
) -> Result<Vec<Basis<N>>, Memory>
    requires some { 1 ≤ N }
    requires within { N ≤ 512 }
    ensures { IfOk result (λ bases. bases.items ≡ replicate count []) }
{
    let mut bases = Vec::new(alloc);
    for _ in 0..count {
        match bases.push(Basis::new(alloc)) {
            Ok(()) => {}
            Err(_) => return Err(Memory),
        }
    }
    Ok(bases)
}

/// Maps of level paths with the paths that made them, which span the maps of all level paths.
pub fn place_all<L: Ledger>(
    alloc: Global,
    program: &Program,
    steps: &mut Steps<L>,
) -> Result<Items<Placed>, Memory>
    requires { IsWellFormed program.now }
    ensures made { IfOk result (λ items. AreMade program.now items) }
    ensures closed { IfOk result (λ items. IsClosed program.now items) }
{
    let mut bases = empty_bases::<289>(alloc, program.nodes as usize)?;
    let mut items = Items::new(alloc);
    open_all(program, &mut bases, &mut items, steps)?;
    let mut place = 0usize;
    while place < items.len() {
        push_item(program, &mut bases, &mut items, place, steps)?;
        place += 1;
    }
    Ok(items)
}
