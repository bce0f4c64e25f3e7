//! What can be wrong with a report.

/// Why bytes aren't a report's text. Lines are counted from 1, and so is a missing one.
#[derive(Clone, Copy, Debug, PartialEq, Eq)]
pub enum ReportRefusal {
    /// The line isn't one that the grammar allows at its place.
    Syntax(u64),
    /// A text in a name's place isn't a name that is wanted there.
    UnknownName(u64),
    /// The line's names or addresses aren't in order.
    Order(u64),
    /// The rows of the point with this line aren't a reduced basis.
    NotReduced(u64),
    /// Out of memory.
    Memory,
}
