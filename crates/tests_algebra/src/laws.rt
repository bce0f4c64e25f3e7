//! The laws of modules, which run nothing, each at one set.

use row_modules::{
    RowSet, choices_are_spanned, combinations_are_a_module, dot_is_bilinear, images_of_modules,
    inclusions, lists_with_one_more, module_is_least, products_of_modules, rows_on_positions,
    zeros_of_forms,
};

/// The set of all rows of 17 words.
pub struct AllRows;

impl RowSet for AllRows {
    ghost use Rattle.word_rows.specs.Rows.{IsRow};

    ghost member = { λ v. IsRow 17 v };
}

#[test]
fn laws_hold_of_one_set() {
    combinations_are_a_module::<AllRows>();
    module_is_least::<AllRows, AllRows>();
    inclusions::<AllRows, AllRows, AllRows>();
    lists_with_one_more();
    choices_are_spanned();
    images_of_modules::<AllRows, AllRows>();
    products_of_modules::<AllRows, AllRows, AllRows, AllRows>();
    dot_is_bilinear();
    zeros_of_forms::<AllRows>();
    rows_on_positions();
}
