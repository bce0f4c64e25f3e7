//! Lists of texts.

ghost use Rattle.std.specs.Prelude.{◌≡◌, IfOk};
ghost use Rattle.numeral_read.specs.Lists.{items_of, texts_of};

use std::alloc::{AllocError, Global};

/// The parts of a list between its commas, in order.
pub fn items_between_commas(alloc: Global, list: &str) -> Result<Vec<&str>, AllocError>
    ensures { IfOk result (λ items. texts_of items.items ≡ items_of list.now) }
{
    list.split(',').collect(alloc)
}
