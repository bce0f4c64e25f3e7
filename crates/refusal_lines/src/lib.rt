//! The lines of refusals: of files that are no image, of their code, of track lists, and of whatever else has one value.
//!
//! Each call gives exactly the line of `specs/Lines.antt`, with the offset, the address or the place in it. Want of memory has
//! no line: it is answered by want of memory. When a file, its code or a list is refused is left to others.
//!
//! ```text
//! elf_line(alloc, ElfRefusal::NotElf { offset: 0 })? // refused NotElf at offset 0
//! value_line(alloc, b"Range", 101)? // refused Range 101
//! ```
#![tactic(auto)]

mod elf_lines;
mod flow_lines;
mod track_lines;
mod value_lines;

pub use elf_lines::elf_line;
pub use flow_lines::flow_line;
pub use track_lines::track_line;
pub use value_lines::value_line;
