//! The lines of reports that are refused.

ghost use Rattle.std.specs.Prelude.{◌≡◌, ◌≢◌, ◌++◌, codes, IfOk};
ghost use Rattle.number_text.specs.Numerals.{dec};
ghost use Rattle.run_answers.specs.Lines.{refused, report_line, stranger_line};

use number_text::{push_dec, push_hex};
use report_read::ReportRefusal;
use std::alloc::{AllocError, Global};

/// The line of bytes that are no report's text. Want of memory has none: it is answered by want of memory.
pub fn report_line(alloc: Global, refusal: ReportRefusal) -> Result<Vec<u8>, AllocError>
    ensures line { IfOk result (λ line. line.items ≡ report_line refusal) }
    ensures refused { IfOk result (λ line. refusal ≢ ReportRefusal.Memory) }
{
    match refusal {
        ReportRefusal::Syntax(line) => numbered(alloc, b"Syntax ", line),
        ReportRefusal::UnknownName(line) => numbered(alloc, b"UnknownName ", line),
        ReportRefusal::Order(line) => numbered(alloc, b"Order ", line),
        ReportRefusal::NotReduced(line) => numbered(alloc, b"NotReduced ", line),
        ReportRefusal::Memory => Err(AllocError),
    }
}

/// The line of a report that tells of what the file doesn't have.
pub fn stranger_line(alloc: Global, address: u64) -> Result<Vec<u8>, AllocError>
    ensures { IfOk result (λ line. line.items ≡ stranger_line address) }
{
    let mut text = Vec::from_slice(alloc, b"refused report NotAPoint ")?;
    push_hex(&mut text, address)?;
    text.extend_from_slice(b"\n")?;
    Ok(text)
}

fn numbered(alloc: Global, name: &[u8], line: u64) -> Result<Vec<u8>, AllocError>
    ensures { IfOk result (λ text. text.items ≡ refused (name.now ++ dec line)) }
{
    let mut text = Vec::from_slice(alloc, b"refused report ")?;
    text.extend_from_slice(name)?;
    push_dec(&mut text, line)?;
    text.extend_from_slice(b"\n")?;
    Ok(text)
}
