//! The writer of reports. Each function appends one part of the text.

ghost use Rattle.std.specs.Prelude.{◌≡◌, ◌==◌, ◌≤◌, ◌++◌, length, All, true, not, position, IfOk, IsTrue, OnOk, codes};
ghost use Rattle.number_text.specs.Numerals.{hex};
ghost use Rattle.report_text.specs.Names.{HasText, is_certified};
ghost use Rattle.report_text.specs.Text.{nl, name_text, names_text, further_names_text, sign, magnitude, term_text, word_text, terms_text, constant_text, rel_text, rows_text, point_text, cert_word_text, certified_text, cert_text, opening_text, certs_text, own_count, points_text, text_of};

use crate::certs::{CertWord, ReportCert};
use crate::names::Name;
use crate::points::{PointRows, PointState};
use crate::reports::Report;
use number_text::{push_dec, push_hex};
use rv_decode::register_name;
use std::alloc::{AllocError, Global};
use word_rows::Row;

/// The text of a report in the form of its version.
pub fn write_report(alloc: Global, report: &Report) -> Result<Vec<u8>, AllocError>
    ensures { IfOk result (λ text. text.items ≡ text_of report.now) }
{
    let names = report.tracked.names.as_slice();
    let mut text = Vec::new(alloc);
    text.extend_from_slice(b"affine-report ")?;
    push_dec(&mut text, u64::from(report.version))?;
    text.extend_from_slice(b"\ntrack ")?;
    push_names(&mut text, names)?;
    text.extend_from_slice(b"\n")?;
    let (certs, points) = (report.certs.as_slice(), report.points.as_slice());
    push_points(&mut text, names, certs, points)?;
    text.extend_from_slice(b"end\n")?;
    Ok(text)
}

/// Appends the names, with commas between them.
pub fn push_names(text: &mut Vec<u8>, names: &[Name]) -> Result<(), AllocError>
    requires { All HasText names.now }
    ensures { OnOk result (text.new.items ≡ text.old.items ++ names_text names.now) }
{
    match names {
        [] => Ok(()),
        [first, further @ ..] => {
            push_name(text, *first)?;
            push_further_names(text, further)
        }
    }
}

fn push_further_names(text: &mut Vec<u8>, names: &[Name]) -> Result<(), AllocError>
    requires { All HasText names.now }
    ensures { OnOk result (text.new.items ≡ text.old.items ++ further_names_text names.now) }
{
    for name in names {
        text.extend_from_slice(b",")?;
        push_name(text, *name)?;
    }
    Ok(())
}

fn push_name(text: &mut Vec<u8>, name: Name) -> Result<(), AllocError>
    requires { HasText name }
    ensures { OnOk result (text.new.items ≡ text.old.items ++ name_text name) }
{
    match name {
        Name::Register(r) => text.extend_from_slice(register_name(r).as_bytes()),
        Name::Slot { proc_entry, below } => {
            push_hex(text, proc_entry)?;
            text.extend_from_slice(b":-")?;
            push_dec(text, u64::from(below))
        }
    }
}

/// Appends the points, each behind its procedure's line where it begins one, with certificates in front of each
/// procedure's first point.
pub fn push_points(
    text: &mut Vec<u8>,
    names: &[Name],
    certs: &[ReportCert],
    points: &[PointRows],
) -> Result<(), AllocError>
    requires names { All HasText names.now }
    requires few { length names.now ≤ 16 }
    ensures { OnOk result (text.new.items ≡ text.old.items ++ points_text names.now certs.now None points.now) }
{
    let mut before = None;
    let mut certs = certs;
    for point in points {
        push_opening(text, before, point.proc_entry)?;
        let (own, later) = certs.split_at(own_count(point.proc_entry, certs));
        push_certs(text, own)?;
        certs = later;
        push_point(text, names, point)?;
        before = Some(point.proc_entry);
    }
    Ok(())
}

/// Appends the line of a point's procedure, unless it is that of the point before.
pub fn push_opening(
    text: &mut Vec<u8>,
    before: Option<u64>,
    procedure: u64,
) -> Result<(), AllocError>
    ensures { OnOk result (text.new.items ≡ text.old.items ++ opening_text before procedure) }
{
    if before == Some(procedure) {
        return Ok(());
    }
    push_line(text, b"proc ", procedure)
}

// How many certificates stand before the first of another procedure.
fn own_count(procedure: u64, certs: &[ReportCert]) -> usize
    ensures count { result ≡ own_count procedure certs.now }
    ensures within { result ≤ length certs.now }
{
    match first_other(procedure, certs) {
        Some(at) => at,
        None => certs.len(),
    }
}

// Where the first certificate of another procedure stands.
fn first_other(procedure: u64, certs: &[ReportCert]) -> Option<usize>
    ensures { result ≡ position (λ c. not (c.proc_entry == procedure)) certs.now }
{
    certs.iter().position(|cert| cert.proc_entry != procedure)
}

fn push_certs(text: &mut Vec<u8>, certs: &[ReportCert]) -> Result<(), AllocError>
    ensures { OnOk result (text.new.items ≡ text.old.items ++ certs_text certs.now) }
{
    for cert in certs {
        push_cert(text, cert)?;
    }
    Ok(())
}

fn push_cert(text: &mut Vec<u8>, cert: &ReportCert) -> Result<(), AllocError>
    ensures { OnOk result (text.new.items ≡ text.old.items ++ cert_text cert.now) }
{
    text.extend_from_slice(b"cert ")?;
    push_certified(text, cert.register, cert.word)
}

/// Appends the name of a register, what is certified of it, and the line's end.
pub fn push_certified(text: &mut Vec<u8>, register: u8, word: CertWord) -> Result<(), AllocError>
    requires { IsTrue (is_certified register) }
    ensures { OnOk result (text.new.items ≡ text.old.items ++ certified_text register word) }
{
    text.extend_from_slice(register_name(register).as_bytes())?;
    text.extend_from_slice(b" ")?;
    text.extend_from_slice(cert_word(word).as_bytes())?;
    text.extend_from_slice(b"\n")
}

fn cert_word(word: CertWord) -> &'static str
    ensures { result.now ≡ cert_word_text word }
{
    match word {
        CertWord::Granted => "granted",
        CertWord::Broken => "broken",
        CertWord::Never => "never",
    }
}

fn push_point(text: &mut Vec<u8>, names: &[Name], point: &PointRows) -> Result<(), AllocError>
    requires names { All HasText names.now }
    requires few { length names.now ≤ 16 }
    ensures { OnOk result (text.new.items ≡ text.old.items ++ point_text names.now point.now) }
{
    push_line(text, b"at ", point.address)?;
    match &point.state {
        PointState::Unreached => text.extend_from_slice(b"unreached\n"),
        PointState::Rows(rows) => push_rows(text, names, rows.as_slice()),
    }
}

fn push_line(text: &mut Vec<u8>, word: &[u8], address: u64) -> Result<(), AllocError>
    ensures { OnOk result (text.new.items ≡ text.old.items ++ (word.now ++ hex address ++ nl)) }
{
    text.extend_from_slice(word)?;
    push_hex(text, address)?;
    text.extend_from_slice(b"\n")
}

fn push_rows(text: &mut Vec<u8>, names: &[Name], rows: &[Row<17>]) -> Result<(), AllocError>
    requires names { All HasText names.now }
    requires few { length names.now ≤ 16 }
    ensures { OnOk result (text.new.items ≡ text.old.items ++ rows_text names.now rows.now) }
{
    if rows.is_empty() {
        return text.extend_from_slice(b"none\n");
    }
    for row in rows {
        push_rel(text, names, row)?;
    }
    Ok(())
}

fn push_rel(text: &mut Vec<u8>, names: &[Name], row: &Row<17>) -> Result<(), AllocError>
    requires names { All HasText names.now }
    requires few { length names.now ≤ 16 }
    ensures { OnOk result (text.new.items ≡ text.old.items ++ rel_text names.now row.now) }
{
    text.extend_from_slice(b"rel ")?;
    push_terms(text, names, row)?;
    push_constant(text, row.get(16))?;
    text.extend_from_slice(b"\n")
}

fn push_terms(text: &mut Vec<u8>, names: &[Name], row: &Row<17>) -> Result<(), AllocError>
    requires names { All HasText names.now }
    requires few { length names.now ≤ 16 }
    ensures { OnOk result (text.new.items ≡ text.old.items ++ terms_text true names.now row.now) }
{
    let mut leads = true;
    for (i, name) in names.iter().enumerate() {
        let word = row.get(i);
        push_word(text, leads, *name, word)?;
        leads &= word == 0;
    }
    Ok(())
}

// The term of a word that isn't 0, behind its sign unless it leads the row.
fn push_word(text: &mut Vec<u8>, leads: bool, name: Name, word: u64) -> Result<(), AllocError>
    requires { HasText name }
    ensures { OnOk result (text.new.items ≡ text.old.items ++ word_text leads name word) }
{
    if word == 0 {
        return Ok(());
    }
    if !leads {
        push_sign(text, word)?;
    }
    push_term(text, name, word)
}

fn push_constant(text: &mut Vec<u8>, word: u64) -> Result<(), AllocError>
    ensures { OnOk result (text.new.items ≡ text.old.items ++ constant_text word) }
{
    if word == 0 {
        return Ok(());
    }
    push_sign(text, word)?;
    push_dec(text, magnitude_of(word))
}

fn push_term(text: &mut Vec<u8>, name: Name, word: u64) -> Result<(), AllocError>
    requires { HasText name }
    ensures { OnOk result (text.new.items ≡ text.old.items ++ term_text name word) }
{
    push_dec(text, magnitude_of(word))?;
    text.extend_from_slice(b"*")?;
    push_name(text, name)
}

// A space and the sign of a word.
fn push_sign(text: &mut Vec<u8>, word: u64) -> Result<(), AllocError>
    ensures { OnOk result (text.new.items ≡ text.old.items ++ (codes " " ++ sign word)) }
{
    if word <= 1 << 63 {
        text.extend_from_slice(b" +")
    } else {
        text.extend_from_slice(b" -")
    }
}

fn magnitude_of(word: u64) -> u64
    ensures { result ≡ magnitude word }
{
    if word <= 1 << 63 {
        word
    } else {
        u64::MAX - (word - 1)
    }
}
