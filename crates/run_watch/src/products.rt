//! What rows give words, without a row made of these.

ghost use Rattle.std.specs.Prelude.{◌≡◌, ◌==◌, not, position};
ghost use Rattle.word_rows.specs.Rows.{dot};

use word_rows::Row;

// The product of a row with words at the same positions.
fn product(row: &Row<17>, words: &[u64; 17]) -> u64
    ensures { result ≡ dot row.now words.now }
{
    let mut sum = 0u64;
    for k in 0..17usize {
        sum = sum.wrapping_add(row.get(k).wrapping_mul(words[k]));
    }
    row.known();
    sum
}

/// The number of the first row that words break.
pub(crate) fn first_unkept(rows: &[Row<17>], words: &[u64; 17]) -> Option<usize>
    ensures { result ≡ position (λ row. not (dot row words.now == 0)) rows.now }
{
    rows.iter().position(|row| product(row, words) != 0)
}
