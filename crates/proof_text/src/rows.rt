//! Rows by their words that aren't 0.

use sqlite_items::Items;

/// A word of a row, and its position.
#[derive(Clone, Copy, Debug, PartialEq, Eq)]
pub struct WordAt {
    pub position: u16,
    pub word: u64,
}

/// A row by some of its words: the others are 0.
#[derive(Debug, Drop)]
pub struct SparseRow {
    pub words: Items<WordAt>,
}
