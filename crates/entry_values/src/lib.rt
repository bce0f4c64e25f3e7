//! What is known of registers and stack slots by the registers at the entry of a procedure, and what an
//! instruction makes of it.
//!
//! The crate promises that [`state_behind`] and [`flow_under`] are the tables of `specs/Transfers.antt` and
//! `specs/Flows.antt`, and that [`opaque_state`] is what `specs/Opaque.antt` says of an opaque instruction.
//! What these tables tell of a machine's steps, and of runs, is proved above this crate.
//!
//! ```text
//! let s = start(alloc);
//! let s = state_behind(alloc, addi, pc, pc + 4, &s)?; // addi sp, sp, -16
//! value_at(&s, 2) // Value::Is(2, 2^64 - 16): the entry's sp less 16
//! ```
#![tactic(auto)]

mod flow;
mod flows;
mod laws;
mod opaque;
mod slots;
mod states;
mod transfers;
mod values;

pub use flow::Flow;
pub use flows::flow_under;
pub use laws::{fits, wide};
pub use opaque::opaque_state;
pub use slots::{is_below, push, same_slots};
pub use states::{Slot, State};
pub use transfers::{copied, plus, put, start, state_behind, store_width, value_at};
pub use values::{Kind, Value};

/// Out of memory.
#[derive(Clone, Copy, Debug, PartialEq, Eq)]
pub struct Memory;
