//! Why files, their code, lists of names, reports and numbers are refused.
//!
//! Here are the types alone, each with its text. When a refusal comes is told by the crate that gives it,
//! and hands its type on: `elf_image`, `flow_points`, `affine_lift`, `report_read`, `gen_elf`.
//!
//! ```text
//! ElfRefusal::NotElf { offset: 0 } // shown as `NotElf at offset 0`
//! ```
#![tactic(auto)]

mod elf;
mod flow;
mod generated;
mod report;
mod track;

pub use elf::ElfRefusal;
pub use flow::FlowRefusal;
pub use generated::GenRefusal;
pub use report::ReportRefusal;
pub use track::TrackRefusal;
