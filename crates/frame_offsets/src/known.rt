//! What is known of one register at one point.

/// What the walks that were met so far say of a register at a point.
#[derive(Clone, Copy, Debug, PartialEq, Eq)]
pub(crate) enum Known {
    /// No walk to the point was met.
    Unmet,
    /// All of them end with this offset, a word.
    Offset(u64),
    /// Two end with different offsets, or one with none.
    Nothing,
}
