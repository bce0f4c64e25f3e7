//! Sums, multiples and products of slices: eight words at a time, and then the rest, word by word. A chunk that a mask
//! lacks is passed over.

ghost use Rattle.std.specs.Prelude.{◌≡◌, ℕ, ◌*◌, ◌/◌, ◌<◌, ◌≤◌, length, slice_index};
ghost use Rattle.std.specs.Int.{bit_at};
ghost use Rattle.word_rows.specs.Rows.{words_of, dot, plus, times};
ghost use Rattle.word_rows.specs.Masks.{Covers};

use crate::lanes::{LANES, add_lanes, add_products, multiply_lanes};
use crate::masks::has;
use std::simd::prelude::*;

/// Each item of a slice of words is a word.
pub fn each_is_word(words: &[u64])
    ensures { words_of words.now ≡ words.now }
{}

/// Adds c times each item to the item at the same position.
pub fn add_multiple(into: &mut [u64], c: u64, from: &[u64], chunks: u64)
    requires same { length into.old ≡ length from.now }
    requires within { length from.now ≤ 512 }
    requires covers { Covers chunks from.now }
    ensures { into.new ≡ words_of (plus c into.old from.now) }
{
    each_is_word(into);
    let wholes = into.len() / LANES;
    for chunk in 0..wholes {
        if has(chunks, chunk) {
            add_lanes(into, LANES * chunk, c, from);
        }
    }
    for at in LANES * wholes..into.len() {
        into[at] = into[at].wrapping_add(c.wrapping_mul(from[at]));
    }
}

/// Multiplies each item by c.
pub fn multiply_all(words: &mut [u64], c: u64, chunks: u64)
    requires within { length words.old ≤ 512 }
    requires covers { Covers chunks words.old }
    ensures { words.new ≡ words_of (times c words.old) }
{
    let wholes = words.len() / LANES;
    for chunk in 0..wholes {
        if has(chunks, chunk) {
            multiply_lanes(words, LANES * chunk, c);
        }
    }
    for at in LANES * wholes..words.len() {
        words[at] = c.wrapping_mul(words[at]);
    }
}

/// The sum of the products at equal positions.
pub fn dot_of(xs: &[u64], ys: &[u64], chunks: u64) -> u64
    requires same { length xs.now ≡ length ys.now }
    requires within { length xs.now ≤ 512 }
    requires covers { (k : ℕ) → k < length xs.now → bit_at chunks (k / 8) ≡ 0 → slice_index xs.now k * slice_index ys.now k ≡ 0 }
    ensures { result ≡ dot xs.now ys.now }
{
    let wholes = xs.len() / LANES;
    let mut sums = u64x8::splat(0);
    for chunk in 0..wholes {
        if has(chunks, chunk) {
            sums = add_products(sums, xs, ys, LANES * chunk);
        }
    }
    let mut sum = sums.reduce_sum();
    for at in LANES * wholes..xs.len() {
        sum = sum.wrapping_add(xs[at].wrapping_mul(ys[at]));
    }
    sum
}
