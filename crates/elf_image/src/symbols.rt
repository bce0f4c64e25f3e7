//! Reading symbols: System V ABI, "Symbol Table".

ghost use Rattle.std.specs.Prelude.{◌≡◌, ◌≤◌, ◌+◌, ◌/◌, ◌++◌, true, length, option_map, option_to_list, position, slice_index, take, IfOk, OnOk};
ghost use Rattle.std.specs.List.{list_all};
ghost use Rattle.elf_image.specs.Symbols.{can_be_read, first_symbols, has_sections, is_first, is_function, is_further, is_letter, is_name, is_zero, lies_in, name_at, name_of, symbol_at, symbols_in, symbols_of};

use crate::fields::{byte_at, half_at, word_at, xword_at};
use crate::file_header::{e_shentsize, e_shnum, e_shoff};
use crate::section::{SECTION_SIZE, SectionHeader, first_table, section_headers};
use crate::symbol::Symbol;
use sqlite_items::Items;
use std::alloc::{AllocError, Global};

/// The bytes of an entry of a symbol table.
const ENTRY_SIZE: usize = 24;

const STT_FUNC: u8 = 2;

const SHN_UNDEF: u16 = 0;

/// The symbols of a file; none where its table can't be read.
#[tactic(auto, unfolding(crate::specs::Symbols::symbols_of))]
pub fn symbols(alloc: Global, bytes: &[u8]) -> Result<Vec<Symbol>, AllocError>
    requires { 64 ≤ length bytes.now }
    ensures { IfOk result (λ v. v.items ≡ symbols_of bytes.now) }
{
    if !has_sections(bytes) {
        return Ok(Vec::new(alloc));
    }
    let sections = section_headers(alloc, bytes)?;
    match first_table(&sections) {
        Some(table) => {
            let strings = sections.get(table.sh_link as usize).copied();
            symbols_in(alloc, bytes, *table, strings)
        }
        None => Ok(Vec::new(alloc)),
    }
}

// The table of section headers lies in the file.
fn has_sections(bytes: &[u8]) -> bool
    requires { 64 ≤ length bytes.now }
    ensures { result ≡ has_sections bytes.now }
{
    let table_size = SECTION_SIZE * usize::from(e_shnum(bytes));
    usize::from(e_shentsize(bytes)) == SECTION_SIZE
        && table_size <= bytes.len()
        && e_shoff(bytes) <= (bytes.len() - table_size) as u64
}

#[tactic(auto, unfolding(crate::specs::Symbols::symbols_in))]
fn symbols_in(
    alloc: Global,
    bytes: &[u8],
    table: SectionHeader,
    strings: Option<SectionHeader>,
) -> Result<Vec<Symbol>, AllocError>
    ensures { IfOk result (λ v. v.items ≡ symbols_in bytes.now table strings) }
{
    match strings {
        Some(strings) if can_be_read(bytes, table, strings) => {
            let strings = strings.contents(bytes);
            entries(alloc, bytes, strings, table)
        }
        _ => Ok(Vec::new(alloc)),
    }
}

fn can_be_read(bytes: &[u8], table: SectionHeader, strings: SectionHeader) -> bool
    ensures { result ≡ can_be_read bytes.now table strings }
{
    table.sh_entsize == ENTRY_SIZE as u64
        && table.lies_in(bytes.len())
        && strings.lies_in(bytes.len())
}

// The symbols of the table's whole entries.
fn entries(
    alloc: Global,
    bytes: &[u8],
    strings: &[u8],
    table: SectionHeader,
) -> Result<Vec<Symbol>, AllocError>
    requires { lies_in (length bytes.now) table ≡ true }
    ensures { IfOk result (λ v. v.items ≡ first_symbols bytes.now strings.now table.sh_offset (table.sh_size / 24)) }
{
    let from = table.sh_offset as usize;
    let mut symbols = Vec::new(alloc);
    for k in 0..table.sh_size as usize / ENTRY_SIZE {
        push_symbol(&mut symbols, bytes, strings, from + ENTRY_SIZE * k)?;
    }
    Ok(symbols)
}

#[tactic(auto, unfolding(crate::specs::Symbols::symbol_at))]
fn push_symbol(
    symbols: &mut Vec<Symbol>,
    bytes: &[u8],
    strings: &[u8],
    at: usize,
) -> Result<(), AllocError>
    requires { at + 24 ≤ length bytes.now }
    ensures { OnOk result (symbols.new.items ≡ symbols.old.items ++ option_to_list (symbol_at bytes.now strings.now at)) }
{
    let Some(name) = name_of(bytes, strings, at) else {
        return Ok(());
    };
    let symbol = Symbol {
        name: Items::from_slice(*symbols.allocator(), name)?,
        value: xword_at(bytes, at + 8),
    };
    symbols.push(symbol)?;
    Ok(())
}

// The name of a function's entry.
fn name_of<'a>(bytes: &[u8], strings: &'a [u8], at: usize) -> Option<&'a [u8]>
    requires { at + 24 ≤ length bytes.now }
    ensures { option_map (λ text. text.now) result ≡ name_of bytes.now strings.entry.now at }
{
    if !is_function(bytes, at) {
        return None;
    }
    name_at(strings, word_at(bytes, at) as usize)
}

fn is_function(bytes: &[u8], at: usize) -> bool
    requires { at + 24 ≤ length bytes.now }
    ensures { result ≡ is_function bytes.now at }
{
    byte_at(bytes, at + 4) % 16 == STT_FUNC && half_at(bytes, at + 6) != SHN_UNDEF
}

// The name that stands at a place of a string table, up to the next zero byte.
fn name_at(strings: &[u8], at: usize) -> Option<&[u8]>
    ensures { option_map (λ text. text.now) result ≡ name_at strings.entry.now at }
{
    let Some(rest) = strings.get(at..) else {
        return None;
    };
    let Some(end) = first_zero(near(rest)) else {
        return None;
    };
    let text = &rest[..end];
    if is_name(text) { Some(text) } else { None }
}

// As many of the bytes as a name and the zero byte behind it may have: a longer search for the zero byte
// finds no name.
fn near(bytes: &[u8]) -> &[u8]
    ensures { result.now ≡ take 256 bytes.now }
{
    if bytes.len() > 256 {
        &bytes[..256]
    } else {
        bytes
    }
}

fn first_zero(bytes: &[u8]) -> Option<usize>
    ensures { result ≡ position is_zero bytes.now }
{
    bytes.iter().position(|b| *b == 0)
}

fn is_name(text: &[u8]) -> bool
    ensures { result ≡ is_name text.now }
{
    !text.is_empty() && text.len() <= 255 && begins_name(text) && each_in_name(text)
}

fn begins_name(text: &[u8]) -> bool
    ensures { result ≡ is_first (slice_index text.now 0) }
{
    match text {
        [first, ..] => is_first(*first),
        [] => false,
    }
}

fn each_in_name(text: &[u8]) -> bool
    ensures { result ≡ list_all is_further text.now }
{
    text.iter().all(|b| is_further(*b))
}

fn is_first(b: u8) -> bool
    ensures { result ≡ is_first b }
{
    is_letter(b) || b == b'_' || b == b'.' || b == b'$'
}

fn is_letter(b: u8) -> bool
    ensures { result ≡ is_letter b }
{
    (b'A' <= b && b <= b'Z') || (b'a' <= b && b <= b'z')
}

fn is_further(b: u8) -> bool
    ensures { result ≡ is_further b }
{
    is_first(b) || (b'0' <= b && b <= b'9')
}
