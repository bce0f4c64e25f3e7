//! Names, and reports of relations as text.
//!
//! A [`Report`] has the tracked names and, for points that ascend by procedure and address, the reduced
//! rows of the relations that hold there, or that no state reaches the point. In version 2 it has a
//! certificate for each procedure of the points and each tracked register among sp, ra and s0 to s11.
//! [`write_report`] gives the text of the report's version by the grammar in `specs/Text.antt`, byte for
//! byte; [`push_names`], [`push_points`], [`push_opening`] and [`push_certified`] append parts of it. That rows and certificates are those of some program is left to whoever makes the report.
//!
//! ```text
//! let text = write_report(alloc, &report)?; // "affine-report 1\ntrack a0\nproc 0x10078\n.."
//! ```
#![tactic(auto)]

mod certs;
mod names;
mod points;
mod reports;
mod writer;

pub use certs::{CertWord, ReportCert, is_certified};
pub use names::{Name, NarrowTracked, Tracked};
pub use points::{PointRows, PointState};
pub use reports::Report;
pub use writer::{push_certified, push_names, push_opening, push_points, write_report};
