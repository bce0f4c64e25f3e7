//! Symbols.

use sqlite_items::Items;

/// The name of an address: the text that a function's entry of the symbol table has, and its value.
#[derive(Debug, Drop)]
pub struct Symbol {
    pub name: Items<u8>,
    pub value: u64,
}
