//! Watches over runs of a machine: what they see of a moment, and what they find.
//!
//! A watch is shown the context of a moment and the record of the step made there, one after the other. Each of the four
//! kinds finds the first step that breaks what it watches: a report's rows, live slots, returns, code; and keeps that
//! finding. What the run does, and how its contexts come, is left to others.
//!
//! ```text
//! let mut watch = ReturnWatch::new();
//! watch.see(&ctx, &rec); // ctx is the moment before the step that rec tells
//! watch.found() // None, or the step, its address, and where it returned to
//! ```
#![tactic(auto)]

mod activation;
mod checks;
mod code_bytes;
mod context;
mod details;
mod instructions;
mod live_slots;
mod marks;
mod moment;
mod outcomes;
mod places;
mod products;
mod quiet;
mod runs;
mod shows;
mod slot_lists;
mod stack;
mod stacks;
mod stops;
mod turns;
mod values;
mod verdicts;
mod watch;
mod watches;

pub use activation::Activation;
pub use checks::check_run;
pub use code_bytes::CodeBytes;
pub use context::{Found, LiveSlots, WatchCtx};
pub use marks::SlotMarks;
pub use places::{CodeAt, SlotAt};
pub use report_places::stranger;
pub use stops::RunStop;
pub use verdicts::{RunRefusal, RunVerdict};
pub use watch::Watch;
pub use watches::{CodeWatch, RelationWatch, ReturnWatch, StoreWatch};
