//! Positions that a module has whole.

ghost use Rattle.std.specs.Prelude.{List, ℕ, Contains, IsTrue};
ghost use Rattle.row_modules.specs.Modules.{AreRows};
ghost use Rattle.row_modules.specs.Bases.{IsLeadingBasis};
ghost use Rattle.lead_basis.specs.Whole.{HasWhole, IsOn};

use word_rows::Row;

/// Whether a row is 0 wherever the marks are.
pub(crate) fn is_on<const N: usize>(row: &Row<N>, marks: &Row<N>) -> bool
    ensures { IsTrue result → IsOn marks.now row.now }
{
    row.known();
    marks.known();
    for i in 0..N {
        if marks.get(i) == 0 && row.get(i) != 0 {
            return false;
        }
    }
    true
}

/// Looks for whole positions after a row was taken through the rows: where the module didn't grow, and they weren't looked
/// for since it did.
pub(crate) fn look<const N: usize>(
    rows: &[Row<N>],
    marks: &mut Row<N>,
    looked: &mut bool,
    grew: bool,
)
    requires basis { IsLeadingBasis N rows.now }
    requires whole { HasWhole N rows.now marks.old }
    ensures { HasWhole N rows.now marks.new }
{
    if grew {
        *looked = false;
    } else if !*looked {
        *looked = true;
        mark(rows, marks);
    }
}

/// Marks the positions of leads whose unit rows the rows show to be in the module: from the last row on, of those with the
/// pivot 1 that are 0 at each further position that isn't marked.
fn mark<const N: usize>(rows: &[Row<N>], marks: &mut Row<N>)
    requires basis { IsLeadingBasis N rows.now }
    requires whole { HasWhole N rows.now marks.old }
    ensures { HasWhole N rows.now marks.new }
{
    for i in 0..rows.len() {
        mark_lead(&rows[rows.len() - 1 - i], marks);
    }
}

// Marks the lead of a row, if its pivot is 1 and each further position where it isn't 0 is marked.
fn mark_lead<const N: usize>(row: &Row<N>, marks: &mut Row<N>)
    ensures { (rows : List (List ℕ)) → AreRows N (Contains rows) → Contains rows row.now → HasWhole N rows marks.old → HasWhole N rows marks.new }
{
    row.known();
    marks.known();
    if let Some(lead) = row.lead() {
        if row.get(lead) == 1 && marks.get(lead) == 0 {
            let more = marks.with(lead, 1);
            if is_on(row, &more) {
                *marks = more;
            }
        }
    }
}
