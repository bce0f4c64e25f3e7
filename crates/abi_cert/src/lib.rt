//! Certificates that a procedure leaves a position of the state as it was.
//!
//! [`certificate`] reads off the basis of a procedure's maps whether the procedure never returns, leaves a
//! position as it was from every state, or doesn't. [`laws`] says that this is so of the procedure's level
//! paths, where the basis has the module of their maps. Which position is which register is left to others,
//! and so is what a calling convention asks for.
//!
//! ```text
//! certificate(&summary, 0) // Cert::Granted where each map of the summary keeps position 0
//! ```
#![tactic(auto)]

mod cert;
mod certify;
pub mod laws;

pub use cert::Cert;
pub use certify::certificate;
