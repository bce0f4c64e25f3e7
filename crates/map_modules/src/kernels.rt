//! Sums of 17 products, and matrices word by word.

ghost use Rattle.std.specs.Prelude.{◌≡◌, ℕ, ◌+◌, ◌*◌, ◌/◌, ◌<◌, length, slice_index, if◌then◌else◌, ◌==◌};
ghost use Rattle.word_rows.specs.Words.{word};
ghost use Rattle.map_modules.specs.Matrices.{cell, entry, sum_below};
ghost use Rattle.map_modules.specs.RowSums.{HasAdded, AddsTimesRow};

use crate::Mat;
use word_rows::Row;

/// The word of a matrix at row i and column j.
pub fn cell<const N: usize>(v: &Row<N>, i: usize, j: usize) -> u64
    requires whole { N ≡ 17 * (N / 17) }
    requires row { i < 17 }
    requires column { j < N / 17 }
    ensures { result ≡ cell (N / 17) v.now i j }
{
    v.get(N / 17 * i + j)
}

/// Adds c times row l of a matrix to row i of another. Where c is 0 nothing is read.
pub fn add_times_row<const N: usize>(words: &mut [u64; N], i: usize, c: u64, v: &Row<N>, l: usize)
    requires whole { N ≡ 17 * (N / 17) }
    requires row { i < 17 }
    requires from { l < 17 }
    ensures { AddsTimesRow (N / 17) i c v.now l words.old words.new }
{
    if c != 0 {
        add_products(words, i, c, v, l);
    }
}

// So it is for any c.
fn add_products<const N: usize>(words: &mut [u64; N], i: usize, c: u64, v: &Row<N>, l: usize)
    requires whole { N ≡ 17 * (N / 17) }
    requires row { i < 17 }
    requires from { l < 17 }
    ensures { HasAdded (N / 17) i c v.now l (N / 17) words.old words.new }
{
    let columns = N / 17;
    for j in 0..columns {
        let at = columns * i + j;
        words[at] = words[at].wrapping_add(c.wrapping_mul(cell(v, l, j)));
    }
}

/// A row of words times column j of a matrix.
pub fn form_by_column<const N: usize>(form: &Row<17>, v: &Row<N>, j: usize) -> u64
    requires whole { N ≡ 17 * (N / 17) }
    requires column { j < N / 17 }
    ensures { result ≡ word (sum_below 17 (λ k. slice_index form.now k * cell (N / 17) v.now k j)) }
{
    let mut sum = 0u64;
    for k in 0..17usize {
        sum = sum.wrapping_add(form.get(k).wrapping_mul(cell(v, k, j)));
    }
    sum
}

/// The word of `assigned` at row k and column j.
pub fn assigned_word<const N: usize>(
    v: &Row<N>,
    i: usize,
    form: &Row<17>,
    k: usize,
    j: usize,
) -> u64
    requires whole { N ≡ 17 * (N / 17) }
    requires row { k < 17 }
    requires column { j < N / 17 }
    ensures { result ≡ word (if k == i then sum_below 17 (λ l. slice_index form.now l * cell (N / 17) v.now l j) else cell (N / 17) v.now k j) }
{
    if k == i {
        form_by_column(form, v, j)
    } else {
        cell(v, k, j)
    }
}

/// The map with `word_at(i, j)` at row i and column j.
pub fn matrix_from<F: Fn(usize, usize) -> u64>(word_at: F) -> Mat
    requires { (i j : ℕ) → i < 17 → j < 17 → F.pre word_at i j }
    ensures width { length result ≡ 289 }
    ensures words { (i j : ℕ) → i < 17 → j < 17 → F.post word_at i j (entry result i j) }
{
    let mut words = [0u64; 289];
    for (at, word) in words.iter_mut().enumerate() {
        *word = word_at(at / 17, at % 17);
    }
    Row::from_words(&words)
}
