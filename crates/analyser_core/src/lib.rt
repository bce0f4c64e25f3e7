//! The analysis, from a file's bytes and a track list to the report.
//!
//! [`analyse`] accepts the file, its code and the list, or tells the first cause for which it doesn't;
//! lifts the code to a program; and gives the report of which each point's rows generate exactly the
//! affine relations that hold there after every path of that program, and that certifies of each procedure
//! which of sp, ra and s0 to s11 it leaves as they were. What holds is defined over paths alone
//! (`affine_prog`), and what the program is, over walks and instructions (`affine_lift`).
//! [`image_of`] and [`points_of`] are its first steps. [`upgrade`] gives a report without certificates those of its
//! points' procedures. [`last_followers`], [`next_states`], [`states_at`] and [`keep`] go through a program's nodes with the states
//! at each, and [`visible_at`] gives what is visible there, for others that tell of states. Texts, files and commands are
//! left to others.
//!
//! ```text
//! let analysis = analyse(alloc, &bytes, "sp,ra,0x10080:-8", &mut steps)?;
//! ```
#![tactic(auto)]

mod accept;
mod analysis;
mod cert_line;
mod certify;
mod kept;
mod laws;
mod point_state;
mod refusal;
mod states;
mod tell;
mod upgrades;

pub use accept::{image_of, points_of};
pub use analysis::{Analysis, MOST_HEADS, analyse, analyse_uncounted};
pub use cert_line::CertLine;
pub use certify::word_of;
pub use kept::{keep, last_followers};
pub use laws::reports_tell_of_runs;
pub use point_state::visible_at;
pub use refusal::Refusal;
pub use states::{next_states, states_at};
pub use upgrades::{UpgradeRefusal, procedures_of, upgrade, upgrade_uncounted};
