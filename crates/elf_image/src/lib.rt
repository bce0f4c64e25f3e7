//! The image of an ELF file: a static little-endian RV64 executable, read from its bytes.
//!
//! [`read_image`] says of any bytes the first condition that refuses them, or gives their image: the
//! entry, the unit, the kept segments, the symbols and the bytes. Every condition is one on the whole list
//! of bytes, so no header, whatever it says, leads outside them. The symbols are those of functions, in the
//! order of their entries; a symbol table that can't be read has none, and refuses nothing. An image answers
//! which byte is loaded at an address, which word of four bytes code has there, and what instruction word of
//! which length is fetched there, by the file's unit. What the words mean is left to others.
//!
//! ```text
//! let image = read_image(alloc, &bytes)?;
//! let first = image.code_at(image.entry);
//! ```
#![tactic(auto)]

mod fetched;
mod fields;
mod file_header;
mod header_table;
mod image;
mod kept;
mod loaded;
mod program_header;
mod range;
mod read;
mod section;
mod segment;
mod symbol;
mod symbols;

pub use fetched::{Fetched, fetch_length};
pub use file_header::unit_of;
pub use image::Image;
pub use range::Range;
pub use read::read_image;
pub use refusals::ElfRefusal;
pub use segment::Segment;
pub use symbol::Symbol;
