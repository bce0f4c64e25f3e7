//! The world outside: named files that are read, and a sink that bytes are put into.
//!
//! The traits `Files` and `Sink` say what may be relied on at any files and any sink. A clause knows the
//! contents of a name and the bytes written where a type tells them, and a count of faults for each name
//! and each sink. A call fails only where its count rose, so a failure always has its cause.
//!
//! `read_all` gives the whole contents of a file or says why not, and `write_all` appends a whole text or
//! says that a put failed, after which a prefix of the text stands in the sink.
//!
//! `DiskFiles` and `StdSink` are the system's own. Both are made of functions over any readers and writers,
//! `read_counted` and `put_to`, which say what is read and what is written where readers and writers tell it.
//! What is left to the system is that its files are such readers of what they hold, and that its standard
//! output is such a writer. Files and sinks in memory, which tests take, stand in a crate above.
//!
//! `behind_first` gives all words of a call but the program's name.
//!
//! ```text
//! let mut files = DiskFiles::new(alloc, &rt);
//! let bytes = read_all(alloc, &mut files, "program.elf", 1 << 24)?;
//! write_all(&mut StdSink::new(&rt), &bytes)?;
//! ```
#![tactic(auto)]

mod disk;
mod errors;
mod files;
mod read;
mod reader;
mod sink;
mod standard;
mod words;
mod write;
mod writer;

pub use disk::DiskFiles;
pub use errors::{Failed, ReadError, WriteError};
pub use files::Files;
pub use read::read_all;
pub use reader::{Kept, Opens, read_counted, read_once};
pub use sink::Sink;
pub use standard::StdSink;
pub use words::behind_first;
pub use write::write_all;
pub use writer::{flush_once, put_to, write_once, write_to};
