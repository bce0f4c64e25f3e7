//! The type of rows.

ghost use Rattle.std.specs.Prelude.{◌≡◌, ℕ, ◌<◌, ◌≤◌, ◌≢◌, ◌↔◌, length, replicate, slice_index, slice_set, IsNone, IfSome};
ghost use Rattle.word_rows.specs.Rows.{words_of, dot, plus, times, lead, IsRow};

use crate::masks::{lead_of, mask_of};
use crate::slices::{add_multiple, dot_of, each_is_word, multiply_all};
use std::marker::Model;

/// A row of N words, N from 1 to 512.
#[derive(Clone, Copy, PartialEq, Eq, Debug)]
pub struct Row<const N: usize> {
    words: [u64; N],
    mask: u64,
}

impl<const N: usize> Model for Row<N> {
    ghost use Rattle.std.specs.Prelude.{◌≡◌, ℕ, List, ◌≤◌};
    ghost use Rattle.word_rows.specs.Masks.{mask_of};
    ghost use Rattle.std.proofs.Common.{sym};

    ghost Value = { List ℕ };

    ghost view = { λ r. r.words };

    ghost invariant = { λ r. (1 ≤ N) × (N ≤ 512) × (r.mask ≡ mask_of r.words) };

    ghost inverse = { λ v. record { words = v; mask = mask_of v } };

    ghost inverse_ok = { λ a h i. record { words = a.words; mask = sym h.2 i } };
}

impl<const N: usize> Row<N> {
    /// The row of N zeros.
    pub fn zero() -> Row<N>
        requires some { 1 ≤ N }
        requires within { N ≤ 512 }
        ensures { result ≡ replicate N 0 }
    {
        Row {
            words: [0; N],
            mask: 0,
        }
    }

    /// The row of these N words.
    pub fn from_words(words: &[u64]) -> Row<N>
        requires some { 1 ≤ N }
        requires within { N ≤ 512 }
        requires items { length words.now ≡ N }
        ensures { result ≡ words.now }
    {
        let mut row = [0; N];
        row.copy_from_slice(words);
        Row {
            words: row,
            mask: mask_of(words, u64::MAX),
        }
    }

    /// What every row keeps. A caller sees a row as a list alone, so it calls this where it needs
    /// the width of the list, the range of its words, or the bounds of N.
    pub fn known(&self)
        ensures row { IsRow N self.now }
        ensures some { 1 ≤ N }
        ensures within { N ≤ 512 }
    {
        each_is_word(&self.words);
    }

    /// The word at position i.
    pub fn get(&self, i: usize) -> u64
        requires { i < N }
        ensures { result ≡ slice_index self.now i }
    {
        self.words[i]
    }

    /// The row with w at position i, and all else as it was.
    pub fn with(mut self, i: usize, w: u64) -> Row<N>
        requires { i < N }
        ensures { result ≡ slice_set self.entry i w }
    {
        self.known();
        self.words[i] = w;
        self.mask = mask_of(&self.words, self.mask | 1 << (i / 8));
        self
    }

    /// Adds c times the other row at each position, wrapping.
    pub fn add_scaled(&mut self, c: u64, other: &Row<N>)
        ensures { self.new ≡ words_of (plus c self.old other.now) }
    {
        self.known();
        if c != 0 {
            add_multiple(&mut self.words, c, &other.words, other.mask);
            self.mask = mask_of(&self.words, self.mask | other.mask);
        }
    }

    /// Multiplies the word at each position by c, wrapping.
    pub fn scale(&mut self, c: u64)
        ensures { self.new ≡ words_of (times c self.old) }
    {
        multiply_all(&mut self.words, c, self.mask);
        self.mask = mask_of(&self.words, self.mask);
    }

    /// The first position whose word isn't 0.
    pub fn lead(&self) -> Option<usize>
        ensures zero { IsNone result ↔ (self.now ≡ replicate N 0) }
        ensures first { IfSome result (λ k. k ≡ lead self.now) }
        ensures within { IfSome result (λ k. k < N) }
        ensures pivot { IfSome result (λ k. slice_index self.now k ≢ 0) }
        ensures before { IfSome result (λ k. (i : ℕ) → i < k → slice_index self.now i ≡ 0) }
    {
        let first = lead_of(&self.words, self.mask);
        if first < N { Some(first) } else { None }
    }

    /// The wrapping sum of the products at equal positions.
    pub fn dot(&self, other: &Row<N>) -> u64
        ensures { result ≡ dot self.now other.now }
    {
        dot_of(&self.words, &other.words, self.mask & other.mask)
    }
}
