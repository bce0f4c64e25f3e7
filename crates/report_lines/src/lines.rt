//! The reader of a line behind the first two.

ghost use Rattle.std.specs.Prelude.{◌++◌, codes};
ghost use Rattle.report_lines.specs.Lines.{IsLineReading, IsPlainReading, IsCertReading, IsCertWordReading, IsHeaderReading};

use crate::cutting::{behind, cut_at};
use numeral_read::{read_dec, read_hex};
use report_text::CertWord;

/// A line that is no relation's.
#[derive(Clone, Copy)]
pub enum Line<'a> {
    /// A procedure's, with its address.
    Proc(u64),
    /// A certificate's, with the text in the place of a register.
    Cert(&'a [u8], CertWord),
    /// A point's, with its address.
    At(u64),
    /// That no relation holds.
    NoRows,
    /// That no state comes.
    Unreached,
    /// The last one.
    End,
}

/// The version of the report whose first line this is.
pub fn read_header(piece: &[u8]) -> Option<u8>
    ensures { IsHeaderReading piece.now result }
{
    match behind(b"affine-report ", piece) {
        None => None,
        Some(number) => match read_dec(number) {
            None => None,
            Some(1) => Some(1),
            Some(2) => Some(2),
            Some(_) => None,
        },
    }
}

/// The line whose text this is; `None` for relations too.
pub fn read_line(piece: &[u8]) -> Option<Line<'_>>
    ensures { IsLineReading piece.now result }
{
    if let Some(number) = behind(b"proc ", piece) {
        proc_line(number)
    } else if let Some(number) = behind(b"at ", piece) {
        at_line(number)
    } else if let Some(rest) = behind(b"cert ", piece) {
        cert_line(rest)
    } else {
        plain_line(piece)
    }
}

fn plain_line(piece: &[u8]) -> Option<Line<'_>>
    ensures { IsPlainReading piece.now result }
{
    match piece {
        b"none" => Some(Line::NoRows),
        b"unreached" => Some(Line::Unreached),
        b"end" => Some(Line::End),
        _ => None,
    }
}

fn proc_line(number: &[u8]) -> Option<Line<'_>>
    ensures { IsLineReading (codes "proc " ++ number.now) result }
{
    match read_hex(number) {
        None => None,
        Some(address) => Some(Line::Proc(address)),
    }
}

fn at_line(number: &[u8]) -> Option<Line<'_>>
    ensures { IsLineReading (codes "at " ++ number.now) result }
{
    match read_hex(number) {
        None => None,
        Some(address) => Some(Line::At(address)),
    }
}

fn cert_line(rest: &[u8]) -> Option<Line<'_>>
    ensures { IsLineReading (codes "cert " ++ rest.now) result }
{
    match read_cert(rest) {
        None => None,
        Some((name, word)) => Some(Line::Cert(name, word)),
    }
}

// The text in the place of a register, and what is certified.
fn read_cert(text: &[u8]) -> Option<(&[u8], CertWord)>
    ensures { IsCertReading text.now result }
{
    match cut_at(b' ', text) {
        None => None,
        Some((name, behind)) => {
            if name.is_empty() {
                return None;
            }
            match read_cert_word(behind) {
                None => None,
                Some(word) => Some((name, word)),
            }
        }
    }
}

fn read_cert_word(text: &[u8]) -> Option<CertWord>
    ensures { IsCertWordReading text.now result }
{
    match text {
        b"granted" => Some(CertWord::Granted),
        b"broken" => Some(CertWord::Broken),
        b"never" => Some(CertWord::Never),
        _ => None,
    }
}
