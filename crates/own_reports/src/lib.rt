//! What holds of an analysis' own reports.
//!
//! The crate runs nothing. `analyser_core` says which report an analysis gives for a file and a list, `run_answers` what a run
//! of a file is checked for against a report, and `run_verdicts` what the findings of such a check mean where the report is a
//! true one. Here laws join them, each the contract of a function: the report of an analysis is a true one, its text is read as
//! itself, and so a relation of it fails in a run of its own file only after a store, a return or a changed instruction that
//! the same verdict has as its finding. There is one such report, and where there is one, nothing but want of memory refuses
//! the file and its list; and a run that keeps the discipline is at no point that it calls unreached.
//!
//! ```text
//! own_reports_fail_for_cause(); // ghost: the law is the function's clause
//! ```
#![tactic(auto)]

pub mod laws;
