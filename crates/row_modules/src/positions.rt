//! Rows that are 0 outside a set of positions.

ghost use Rattle.row_modules.specs.Laws.{FewPositionsUsed, RowsOnAreSpanned};

/// The rows that are 0 outside a set are a module, which the unit rows at its positions span; and they use few positions.
pub fn rows_on_positions()
    ensures spanned { RowsOnAreSpanned }
    ensures few { FewPositionsUsed }
{}
