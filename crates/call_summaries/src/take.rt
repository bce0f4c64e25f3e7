//! What calls make of rows, offered to a node.

ghost use Rattle.std.specs.Prelude.{◌≡◌, ◌<◌, length, map, IfOk, bit_and};
ghost use Rattle.map_modules.specs.Matrices.{product};
ghost use Rattle.row_engine.specs.Growth.{Offered, Takes};
ghost use Rattle.call_summaries.specs.Offers.{Called};

use lead_basis::{Memory, Steps};
use map_modules::{Mat, extend_call, product};
use row_engine::Nodes;
use sqlite_items::Items;
use std::alloc::Global;
use std::sync::ledger::Ledger;

/// Offers the products of a matrix and each of a list.
pub(crate) fn take_products<L: Ledger>(
    alloc: Global,
    nodes: &mut Nodes<289>,
    to: u32,
    after: &Mat,
    rows: &[Mat],
    steps: &mut Steps<L>,
) -> Result<(), Memory>
    requires { to < length nodes.old.bases }
    ensures { Takes 289 (Offered 289 to (map (λ x. product after.now x) rows.now)) nodes.old nodes.new result steps.old steps.new }
{
    let products = products(alloc, after, rows)?;
    nodes.offer(to, products.as_slice(), steps)
}

/// Offers what calls make: the products of the extensions of callees' maps, and images.
pub(crate) fn take_calls<L: Ledger>(
    alloc: Global,
    nodes: &mut Nodes<289>,
    to: u32,
    sets: (u16, u16),
    callees: &[Mat],
    images: &[Mat],
    steps: &mut Steps<L>,
) -> Result<(), Memory>
    requires to { to < length nodes.old.bases }
    requires disjoint { bit_and sets.0 sets.1 ≡ 0 }
    ensures { Takes 289 (Called sets.0 sets.1 to callees.now images.now) nodes.old nodes.new result steps.old steps.new }
{
    nodes.known();
    for callee in callees {
        let extended = extend_call(callee, sets.0, sets.1);
        take_products(alloc, nodes, to, &extended, images, steps)?;
    }
    Ok(())
}

/// The products of a matrix and each of a list.
fn products(alloc: Global, after: &Mat, rows: &[Mat]) -> Result<Items<Mat>, Memory>
    ensures { IfOk result (λ products. products ≡ map (λ x. product after.now x) rows.now) }
{
    let mut products = Items::new(alloc);
    for row in rows {
        match products.push(product(after, row)) {
            Ok(()) => {}
            Err(_) => return Err(Memory),
        }
    }
    Ok(products)
}
