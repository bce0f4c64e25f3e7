//! Parts of the text.

/// The parts of the text: routines with a fault; those of which something is unknown; those unknown by one callee
/// alone; those of which all is kept; and those that never return.
#[derive(Clone, Copy, Debug, PartialEq, Eq)]
pub enum Part {
    Faults,
    Open,
    ByCallee,
    Whole,
    Endless,
}
