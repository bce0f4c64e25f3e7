//! Files and sinks in memory, for tests of what reads and writes.
//!
//! The crate promises what the traits `Files` and `Sink` of `outside` ask for, and more: what each call gives,
//! and which call fails. They stand here in two kinds: with calls that fail at will (`MemFiles`, `MemSink`),
//! and with no fault at all (`CleanFiles`, `CleanSink`). What the system's own files do is left to `outside`.
//!
//! ```text
//! let mut sink = MemSink::with_capacity(alloc, 60, 10, vec![in alloc; 2]?)?; // its second put fails
//! let answer = write_all(&mut sink, b"affine-report 2\n"); // Failed, and sink.written is `affine-rep`
//! ```
#![tactic(auto)]

mod calls;
mod clean;
mod mem_file;
mod mem_files;
mod mem_sink;

pub use clean::{CleanFiles, CleanSink};
pub use mem_file::MemFile;
pub use mem_files::MemFiles;
pub use mem_sink::{MemSink, Memory};
