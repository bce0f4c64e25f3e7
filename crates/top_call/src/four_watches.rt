//! Four watches in a list.

ghost use Rattle.std.specs.Prelude.{◌≡◌, None, map, replicate, IfOk};
ghost use Rattle.run_answers.specs.Answers.{four_kinds};

use run_watch::Watch;
use std::alloc::{AllocError, Global};

/// The list of four watches, of the kinds 1 to 4 in this order, that have found nothing.
pub fn in_order(
    alloc: Global,
    relations: Box<dyn Watch>,
    stores: Box<dyn Watch>,
    returns: Box<dyn Watch>,
    code: Box<dyn Watch>,
) -> Result<Vec<Box<dyn Watch>>, AllocError>
    requires kinds { (kind_of relations ≡ 1) × (kind_of stores ≡ 2) × (kind_of returns ≡ 3) × (kind_of code ≡ 4) }
    requires relations { state relations ≡ None }
    requires stores { state stores ≡ None }
    requires returns { state returns ≡ None }
    requires code { state code ≡ None }
    ensures kinds { IfOk result (λ watches. map (λ watch. kind_of watch) watches.items ≡ four_kinds) }
    ensures fresh { IfOk result (λ watches. map (λ watch. state watch) watches.items ≡ replicate 4 None) }
{
    let mut watches = Vec::new(alloc);
    watches.push(relations)?;
    watches.push(stores)?;
    watches.push(returns)?;
    watches.push(code)?;
    Ok(watches)
}
