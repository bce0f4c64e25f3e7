//! What orders answer: bytes and an order's values in, the status and the text out.
//!
//! Each order has one call, whose clause says which answer it gives: the text with status 0, or the line of the first thing
//! that is refused with status 1, or 6 where that is a report. `run` has status 7 where a watch found something. [`code_of`]
//! tells the code of a file first, for the orders over a file and a report. Want of memory is left to the caller, and so are
//! files, sinks, words, and what arguments get that are no order.
//!
//! ```text
//! answer_to_cert(alloc, &bytes, "s0,fp")? // (1, "refused Repeated 2\n")
//! ```
#![tactic(auto)]

mod analyse_order;
mod causes;
mod cert_order;
mod certs_text;
mod file_code;
mod gen_order;
mod gen_text;
mod list_order;
mod narrow_order;
mod points_list;
mod refute_order;
mod run_order;
mod upgrade_order;

pub use analyse_order::answer_to_analyse;
pub use cert_order::answer_to_cert;
pub use file_code::{code_of, refused};
pub use gen_order::answer_to_gen;
pub use list_order::answer_to_list;
pub use narrow_order::answer_to_narrow;
pub use refute_order::answer_to_refute;
pub use run_order::answer_to_run;
pub use upgrade_order::answer_to_upgrade;
