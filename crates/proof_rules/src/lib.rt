//! The rules by which a proof file is checked, and what they prove.
//!
//! A proof file gives for each head of a block program rows of maps, and for each procedure rows of states. `specs/Rules.antt`
//! has the rules that these rows have to pass; `laws` has what follows: each map of a level path, and each state of an open
//! path, is a combination of them, so that what vanishes on them holds. How a file is read and how the rules are tried is
//! left to the crates above.
//!
//! ```text
//! claims_hold(); // where the rows pass the rules, each claimed row holds after every open path
//! ```
#![tactic(auto)]

mod laws;

pub use laws::{
    claims_hold, constant_is_nowhere_zero, exact_rows_pass, level_maps_are_in, open_states_are_in,
    rules_follow_modules,
};
