//! What can be wrong with the line of the tracked names.

/// Why a text isn't the line of some tracked names.
#[derive(Clone, Copy, Debug, PartialEq, Eq)]
pub enum TrackFault {
    /// It isn't 1 to 16 texts between commas.
    Syntax,
    /// A text between the commas is no name's.
    UnknownName,
    /// A name comes twice.
    Order,
    /// Out of memory.
    Memory,
}
