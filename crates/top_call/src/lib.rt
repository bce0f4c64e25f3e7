//! The top call: it carries out the order of a program's arguments.
//!
//! [`affine_main`] takes the arguments after the program's name, files to read, a sink for the text and the watches of a run,
//! and gives the exit status. Its clauses say which text the sink gains and why each status comes, that an order whose input
//! nothing refuses is done, and what a report tells of runs of the machine. [`run`] is the same call under watches of its own,
//! and [`run_with`] ends a program with its status. What arguments mean is told by `orders`, what orders answer by
//! `order_answers`, and how a call ends by `call_ends`.
//!
//! ```text
//! affine_main(alloc, &words, &mut files, &mut out, watches) // of the words list, absent: 3, and `read fault` is put
//! ```
#![tactic(auto)]

mod carrying_out;
mod file_orders;
mod four_watches;
mod laws;
mod report_orders;

pub use carrying_out::{affine_main, run, run_with};
pub use four_watches::in_order;
pub use laws::faults_have_causes;
