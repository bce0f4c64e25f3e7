//! Rows as linear forms.

ghost use Rattle.row_modules.specs.Laws.{DotIsSymmetric, DotOfMultiple, DotOfSum, SolutionsAreModule, VanishesOnModule};

use crate::RowSet;

/// The sum of products is symmetric, and commutes with sums and multiples under one wrap.
pub fn dot_is_bilinear()
    ensures symmetric { DotIsSymmetric }
    ensures sum { DotOfSum }
    ensures multiple { DotOfMultiple }
{}

/// A form that is 0 on generators is 0 on their module, and the rows at which each form of a set is 0 are a module.
pub fn zeros_of_forms<P: RowSet>()
    ensures combinations { VanishesOnModule P.member }
    ensures solutions { SolutionsAreModule P.member }
{}
