//! Reduced bases.

ghost use Rattle.row_modules.specs.Bases.{IsLeadingBasis};
ghost use Rattle.lead_basis.specs.Laws.{Reduces};

use crate::multiples::take_multiples;
use word_rows::Row;

/// Takes from each row the multiples of the later rows that leave words below their pivots.
pub(crate) fn reduce<const N: usize>(rows: &mut Vec<Row<N>>)
    requires { IsLeadingBasis N rows.old.items }
    ensures { Reduces N rows.old.items rows.new.items }
{
    for i in (0..rows.len()).rev() {
        let mut row = rows[i];
        take_multiples(&mut row, &rows[i + 1..]);
        rows[i] = row;
    }
}
