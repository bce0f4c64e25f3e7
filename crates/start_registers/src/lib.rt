//! The registers with which a run starts, as text: items `register=word` between single commas.
//!
//! The crate promises that [`read_registers`] gives the 32 words exactly where the text is such a list: each register that
//! an item names has the item's word, and every other one is 0. [`start_of`] gives 32 zeros where there is no text. It
//! leaves to others what a run makes of them, and how a text that is no such list is refused.
//!
//! ```text
//! read_registers(alloc, "sp=0x20000,a0=1")? // Some: x2 is 0x20000, x10 is 1, the others are 0
//! read_registers(alloc, "s0=3,fp=4")? // None: both are x8
//! ```
#![tactic(auto)]

mod item;
mod list;
mod start;
mod word;

pub use list::read_registers;
pub use start::start_of;
