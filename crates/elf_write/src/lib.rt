//! ELF files made: little-endian RV64 executables, byte for byte.
//!
//! The crate promises that each call appends or gives exactly the bytes of `specs/Headers.antt`. A file is
//! its header, a header for each segment, and then what the caller puts there; whether a loader takes it is
//! left to the caller, who may write what no loader takes. A small file is the plainest of them: one segment,
//! which is the whole file, loaded at 0x10000, with its code from 0x10078 on, where it is entered.
//!
//! ```text
//! file_of_words(alloc, &[0x00500513, 0x00100073])? // addi a0,zero,5; ebreak: 128 bytes
//! ```
#![tactic(auto)]

mod headers;
mod push;
mod small;

pub use headers::{FileHeader, SegmentHeader};
pub use push::{push_file_header, push_number, push_program_header, push_words};
pub use small::{file_of_code, file_of_words, push_small_headers};
