//! What the findings of watches tell of the discipline of runs.
//!
//! The crate runs nothing. `run_watch` says what watches find along a run, `run_paths` which discipline a run has to keep so
//! that it follows the paths of its program. Here laws tie the two, each the contract of a function: where the watches of
//! stores, returns and code find nothing, a run keeps the discipline, and while it does no relation of a true report fails.
//! And a run of accepted code ends at a point of the file, whatever it keeps.
#![tactic(auto)]

pub mod laws;
