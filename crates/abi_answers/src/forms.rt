//! Forms of answers.

/// Lines for scripts; or text for people, with the ways to faults and the addresses of premises, where it is true.
#[derive(Clone, Copy, Debug, PartialEq, Eq)]
pub enum Form {
    Lines,
    People(bool),
}
