//! What of words is told.

/// Whole words, or their low 32 bits: then a slot has four bytes.
#[derive(Clone, Copy, Debug, PartialEq, Eq)]
pub enum Width {
    Wide,
    Narrow,
}
