//! What can be wrong with a row that is asked for.

/// Why a text of a row's form is no row over the tracked names: the first term that breaks a rule, by its place from 1 on.
#[derive(Clone, Copy, Debug, PartialEq, Eq)]
pub enum RowRefusal {
    /// Its name isn't a tracked one that is seen in the procedure.
    UnknownName(u64),
    /// Its name is, and its position isn't above that of the term before it.
    Order(u64),
}
