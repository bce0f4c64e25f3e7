//! Multiples of rows: what elimination does with two rows.

ghost use Rattle.std.specs.Prelude.{◌≡◌, ℕ, ◌<◌, ◌-◌, ◌^◌, ◌%◌, ◌↔◌, IsTrue, slice_index};
ghost use Rattle.word_rows.specs.Words.{word};
ghost use Rattle.word_rows.specs.Rows.{words_of, times, lead, pivot};
ghost use Rattle.row_modules.specs.Bases.{IsLeadingBasis};
ghost use Rattle.lead_basis.specs.Remainders.{IsNormal, IsRemainder, TakesMultiple};

use word_rows::{Row, inverse, odd_part};

/// Takes from a row the multiple of `by` that leaves at the lead of `by` a word below its pivot.
pub(crate) fn take_multiple<const N: usize>(row: &mut Row<N>, by: &Row<N>)
    ensures { lead by.now < N → TakesMultiple N by.now row.old row.new }
{
    row.known();
    by.known();
    if let Some(lead) = by.lead() {
        let times = row.get(lead) / by.get(lead);
        row.add_scaled(times.wrapping_neg(), by);
    }
}

/// Whether the pivot of `by` divides the word of a row at its lead.
pub(crate) fn divides<const N: usize>(by: &Row<N>, row: &Row<N>) -> bool
    requires { lead by.now < N }
    ensures { IsTrue result ↔ (slice_index row.now (lead by.now) % pivot by.now ≡ 0) }
{
    match by.lead() {
        Some(lead) => row.get(lead) % by.get(lead) == 0,
        None => false,
    }
}

/// Takes from a row the multiples of a basis that leave a word below the pivot at the lead of each of its rows.
pub(crate) fn take_multiples<const N: usize>(row: &mut Row<N>, basis: &[Row<N>])
    requires { IsLeadingBasis N basis.now }
    ensures { IsRemainder N basis.now row.old row.new }
{
    row.known();
    for by in basis {
        take_multiple(row, by);
    }
}

/// The multiple of a row by an odd word whose pivot is a power of two.
pub(crate) fn normal<const N: usize>(row: &Row<N>) -> Row<N>
    requires { lead row.now < N }
    ensures { IsNormal N row.now result }
{
    row.known();
    let mut own = *row;
    if let Some(lead) = row.lead() {
        let (_, odd) = odd_part(row.get(lead));
        own.scale(inverse(odd));
    }
    own
}

/// The least multiple of a row with the pivot 2^t that is 0 at the lead: 2^(64-t) times the row.
pub(crate) fn closing<const N: usize>(row: &Row<N>) -> Row<N>
    requires { lead row.now < N }
    ensures { (power : ℕ) → power < 64 → pivot row.now ≡ 2 ^ power → result ≡ words_of (times (2 ^ (64 - power)) row.now) }
{
    let mut multiple = *row;
    if let Some(lead) = row.lead() {
        multiple.scale(closing_factor(row.get(lead).trailing_zeros()));
    }
    multiple
}

/// 2^(64-t), wrapped.
fn closing_factor(power: u32) -> u64
    requires { power < 64 }
    ensures { result ≡ word (2 ^ (64 - power)) }
{
    if power == 0 { 0 } else { 1 << (64 - power) }
}
