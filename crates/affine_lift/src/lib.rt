//! From code to programs: the names of a track list, and the program over affine assignments that stands for the code
//! of an image with these names.
//!
//! [`read_tracked`] reads a list of names, registers and frame slots, or says which item is none and why. A slot's
//! procedure is told by its address, or by a symbol, of which the first one of that name counts. [`lift`] gives the
//! program: a node for each point and one more for the exit of each procedure, an edge for each way on, and on it what
//! the point's instruction does to the tracked names, as assignments. What an assignment can't tell exactly is any word.
//! [`slot_writes`] gives the slots that a point assigns. [`read_narrow_tracked`] and [`lift_narrow`] do the same for the low
//! 32 bits of words, which more instructions make affine, and where slots have four bytes. What the program's paths make of the names, and whether a
//! machine follows them, is left to others.
//!
//! ```text
//! let tracked = read_tracked(alloc, "a0,sp,main:-8", &image, &points)?;
//! let program = lift(alloc, &points, &offsets, &tracked)?; // node 0 is point 0
//! ```
#![tactic(auto)]

mod chosen;
mod effect;
mod frame;
mod laws;
mod names;
mod positions;
mod program;
mod registers;
mod store;
mod value;
mod width;

pub use laws::{lists_are_read_in_one_way, programs_are_one, visible_names_are_seen};
pub use names::{read_narrow_tracked, read_tracked};
pub use program::{lift, lift_narrow, slot_writes};
pub use refusals::TrackRefusal;
pub use store::FrameStore;
pub use value::{Term, Value};
pub use width::Width;
