//! Eight words of a slice at a time, as one vector.

ghost use Rattle.std.specs.Prelude.{◌≡◌, ◌+◌, ◌≤◌, length};
ghost use Rattle.std.specs.Simd.Lanes.{chunk, put_chunk, sum_l};
ghost use Rattle.word_rows.specs.Words.{word};
ghost use Rattle.word_rows.specs.Rows.{words_of, dot_sum, plus, times, lead};

use std::simd::prelude::*;

/// The words of a vector.
pub const LANES: usize = 8;

/// Adds c times the eight words from `at` on to those at the same positions.
pub fn add_lanes(into: &mut [u64], at: usize, c: u64, from: &[u64])
    requires into { at + 8 ≤ length into.old }
    requires from { at + 8 ≤ length from.now }
    ensures { into.new ≡ put_chunk at into.old (words_of (plus c (chunk at 8 into.old) (chunk at 8 from.now))) }
{
    let multiple = u64x8::splat(c) * u64x8::from_slice(&from[at..]);
    let sum = u64x8::from_slice(&into[at..]) + multiple;
    sum.copy_to_slice(&mut into[at..]);
}

/// Multiplies the eight words from `at` on by c.
pub fn multiply_lanes(words: &mut [u64], at: usize, c: u64)
    requires { at + 8 ≤ length words.old }
    ensures { words.new ≡ put_chunk at words.old (words_of (times c (chunk at 8 words.old))) }
{
    let multiple = u64x8::splat(c) * u64x8::from_slice(&words[at..]);
    multiple.copy_to_slice(&mut words[at..]);
}

/// Adds to each sum the product of the words at its position among the eight from `at` on.
pub fn add_products(sums: u64x8, xs: &[u64], ys: &[u64], at: usize) -> u64x8
    requires xs { at + 8 ≤ length xs.now }
    requires ys { at + 8 ≤ length ys.now }
    ensures { word (sum_l result) ≡ word (sum_l sums + dot_sum (chunk at 8 xs.now) (chunk at 8 ys.now)) }
{
    sums + u64x8::from_slice(&xs[at..]) * u64x8::from_slice(&ys[at..])
}

/// How many of the eight words from `at` on come before the first that isn't 0.
pub fn lead_of_lanes(words: &[u64], at: usize) -> usize
    requires { at + 8 ≤ length words.now }
    ensures { result ≡ lead (chunk at 8 words.now) }
{
    let others = u64x8::from_slice(&words[at..])
        .simd_ne(u64x8::splat(0))
        .to_bitmask();
    if others == 0 {
        LANES
    } else {
        others.trailing_zeros() as usize
    }
}
