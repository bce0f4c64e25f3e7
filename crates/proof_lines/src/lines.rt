//! The reader of a line.

ghost use Rattle.std.specs.Prelude.{◌≡◌, ◌≢◌, ◌↔◌, ℕ, ◌≤◌, List, ◌++◌, codes, IsTrue};
ghost use Rattle.proof_lines.specs.Lines.{IsLineReading, IsLineReadingOr, IsPlaceReading};

use crate::words::read_words;
use numeral_read::read_hex;
use proof_text::SparseRow;
use report_lines::{behind, cut_at};
use std::alloc::{AllocError, Global};

/// What a line tells.
#[derive(Drop)]
pub enum Line {
    /// A head: a point of a procedure or, where there is no address, its exit.
    Head {
        proc_entry: u64,
        address: Option<u64>,
    },
    /// A procedure, whose entry is meant.
    Entry {
        proc_entry: u64,
    },
    /// A row, by its words that aren't 0.
    Row(SparseRow),
    /// That claims follow.
    Claims,
}

/// The line whose text this is, where rows have so many words; `None` where it is no line's.
pub fn read_line(alloc: Global, width: u64, piece: &[u8]) -> Result<Option<Line>, AllocError>
    requires { width ≤ 512 }
    ensures { IsLineReadingOr width piece.now result }
{
    match behind(b"row ", piece) {
        Some(text) => row_line(alloc, width, text),
        None => Ok(plain_line(width, piece)),
    }
}

fn row_line(alloc: Global, width: u64, text: &[u8]) -> Result<Option<Line>, AllocError>
    requires { width ≤ 512 }
    ensures { IsLineReadingOr width (codes "row " ++ text.now) result }
{
    match read_words(alloc, width, text) {
        Err(fault) => Err(fault),
        Ok(None) => Ok(None),
        Ok(Some(words)) => Ok(Some(Line::Row(SparseRow { words }))),
    }
}

// The same of a text that is no row's.
fn plain_line(width: u64, piece: &[u8]) -> Option<Line>
    requires { (rest : List ℕ) → piece.now ≢ codes "row " ++ rest }
    ensures { IsLineReading width piece.now result }
{
    if let Some(rest) = behind(b"head ", piece) {
        head_line(width, rest)
    } else if let Some(number) = behind(b"entry ", piece) {
        entry_line(width, number)
    } else {
        claims_line(width, piece)
    }
}

fn head_line(width: u64, text: &[u8]) -> Option<Line>
    ensures { IsLineReading width (codes "head " ++ text.now) result }
{
    let Some((number, place)) = cut_at(b' ', text) else {
        return None;
    };
    match read_hex(number) {
        None => None,
        Some(proc_entry) => match read_place(place) {
            None => None,
            Some(address) => Some(Line::Head {
                proc_entry,
                address,
            }),
        },
    }
}

// A point's address, or none where the text is the word for an exit.
fn read_place(text: &[u8]) -> Option<Option<u64>>
    ensures { IsPlaceReading text.now result }
{
    match text {
        b"exit" => Some(None),
        _ => match read_hex(text) {
            None => None,
            Some(address) => Some(Some(address)),
        },
    }
}

fn entry_line(width: u64, number: &[u8]) -> Option<Line>
    ensures { IsLineReading width (codes "entry " ++ number.now) result }
{
    match read_hex(number) {
        None => None,
        Some(proc_entry) => Some(Line::Entry { proc_entry }),
    }
}

fn claims_line(width: u64, piece: &[u8]) -> Option<Line>
    requires no_row { (rest : List ℕ) → piece.now ≢ codes "row " ++ rest }
    requires no_head { (rest : List ℕ) → piece.now ≢ codes "head " ++ rest }
    requires no_entry { (rest : List ℕ) → piece.now ≢ codes "entry " ++ rest }
    ensures { IsLineReading width piece.now result }
{
    if is_claims(piece) {
        Some(Line::Claims)
    } else {
        None
    }
}

fn is_claims(piece: &[u8]) -> bool
    ensures { IsTrue result ↔ (piece.now ≡ codes "claims") }
{
    matches!(piece, b"claims")
}
