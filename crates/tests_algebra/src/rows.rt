//! A table of sums at several widths, and each call once on a plain case.

ghost use Rattle.std.specs.Prelude.{◌≤◌};

use word_rows::{Row, inverse, odd_part};

const HALF: u64 = 1 << 63;

/// With the word 2^63 + i at each position i: whether three times that row wraps to 2^63 + 3 * i, and its words add up to
/// the given sum. A row with its last word alone leads there.
fn sums_are<const N: usize>(sum: u64) -> bool
    requires some { 1 ≤ N }
    requires within { N ≤ 512 }
{
    let mut row = Row::<N>::zero();
    for i in 0..N {
        row = row.with(i, HALF + i as u64);
    }
    let mut thrice = Row::<N>::zero();
    thrice.add_scaled(3, &row);
    for i in 0..N {
        if thrice.get(i) != HALF + 3 * i as u64 {
            return false;
        }
    }
    let added = row.dot(&Row::from_words(&[1; N]));
    row.scale(3);
    added == sum && row == thrice && Row::<N>::zero().with(N - 1, 5).lead() == Some(N - 1)
}

fn sums_wrap() -> bool {
    sums_are::<1>(HALF)
        && sums_are::<7>(HALF + 21)
        && sums_are::<8>(28)
        && sums_are::<9>(HALF + 36)
        && sums_are::<17>(HALF + 136)
        && sums_are::<289>(HALF + 41616)
        && sums_are::<512>(130816)
}

fn is_scaled_to_its_pivot() -> bool {
    let mut row = Row::<3>::from_words(&[0, 24, 6]);
    let leads = row.lead() == Some(1) && Row::<3>::zero().lead().is_none();
    row.scale(inverse(3));
    leads && row == Row::from_words(&[0, 8, 2])
}

#[test]
fn sums_wrap_at_every_width(rt: HostRuntime) {
    assert!(rt; sums_wrap());
}

#[test]
fn a_row_is_scaled_to_its_pivot(rt: HostRuntime) {
    assert!(rt; odd_part(24) == (3, 3));
    assert!(rt; inverse(3) == 12297829382473034411);
    assert!(rt; is_scaled_to_its_pivot());
}
