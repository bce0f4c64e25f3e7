//! The contents of the names that an order has.

ghost use Rattle.std.specs.Prelude.{◌≡◌, ◌≤◌, ◌^◌, ℕ, List, length, IfOk, IfErr, IsOk};
ghost use Rattle.outside.specs.Counts.{HasRisen};
ghost use Rattle.refusal_lines.specs.Lines.{most_report_bytes, too_long_line, report_too_long_line};
ghost use Rattle.call_ends.specs.Replies.{AnswersWith, IsLong, IsWhole};

use crate::Reply;
use crate::saying::reply_of;
use outside::{Files, ReadError, read_all};
use std::alloc::{AllocError, Global};

/// The most bytes that a file may have.
const MOST_BYTES: u64 = 1 << 24;

/// The most bytes that a report may have.
const MOST_REPORT_BYTES: u64 = 1 << 28;

const TOO_LONG: &[u8] = b"refused TooLong 16777216\n";

const REPORT_TOO_LONG: &[u8] = b"refused report TooLong 268435456\n";

/// The bytes of a file; or the reply to one that has too many, or can't be read.
pub fn file_bytes<F: Files>(alloc: Global, files: &mut F, name: &str) -> Result<Vec<u8>, Reply>
    ensures whole { IfOk result (λ bytes. IsWhole (F.contents files.old name.now) bytes.items) }
    ensures short { IfOk result (λ bytes. length bytes.items ≤ 2 ^ 24) }
    ensures replies { IfErr result (AnswersWith (IsLong (2 ^ 24) 1 too_long_line (F.contents files.old name.now))
        (HasRisen (F.faults files.old name.now) (F.faults files.new name.now))) }
    ensures contents_stay { (other : List ℕ) → F.contents files.new other ≡ F.contents files.old other }
    ensures counts_stay { IsOk result → (other : List ℕ) → F.faults files.new other ≡ F.faults files.old other }
{
    bytes_of(alloc, files, name, MOST_BYTES, 1, TOO_LONG)
}

/// The bytes of a report; or the reply to one that has too many, or can't be read.
pub fn report_bytes<F: Files>(alloc: Global, files: &mut F, name: &str) -> Result<Vec<u8>, Reply>
    ensures whole { IfOk result (λ bytes. IsWhole (F.contents files.old name.now) bytes.items) }
    ensures short { IfOk result (λ bytes. length bytes.items ≤ most_report_bytes) }
    ensures replies { IfErr result (AnswersWith (IsLong most_report_bytes 6 report_too_long_line (F.contents files.old name.now))
        (HasRisen (F.faults files.old name.now) (F.faults files.new name.now))) }
    ensures contents_stay { (other : List ℕ) → F.contents files.new other ≡ F.contents files.old other }
    ensures counts_stay { IsOk result → (other : List ℕ) → F.faults files.new other ≡ F.faults files.old other }
{
    bytes_of(alloc, files, name, MOST_REPORT_BYTES, 6, REPORT_TOO_LONG)
}

// The contents of a name. One with more bytes than these gets this status and line.
fn bytes_of<F: Files>(
    alloc: Global,
    files: &mut F,
    name: &str,
    most: u64,
    status: u8,
    line: &[u8],
) -> Result<Vec<u8>, Reply>
    ensures whole { IfOk result (λ bytes. IsWhole (F.contents files.old name.now) bytes.items) }
    ensures short { IfOk result (λ bytes. length bytes.items ≤ most) }
    ensures replies { IfErr result (AnswersWith (IsLong most status line.now (F.contents files.old name.now))
        (HasRisen (F.faults files.old name.now) (F.faults files.new name.now))) }
    ensures contents_stay { (other : List ℕ) → F.contents files.new other ≡ F.contents files.old other }
    ensures counts_stay { IsOk result → (other : List ℕ) → F.faults files.new other ≡ F.faults files.old other }
{
    match read_all(alloc, files, name, most) {
        Ok(bytes) => Ok(bytes),
        Err(ReadError::TooLong(_)) => Err(reply_of(answer_of(alloc, status, line))),
        Err(ReadError::Failed) => Err(Reply::ReadFault),
        Err(ReadError::Memory) => Err(Reply::OutOfMemory),
    }
}

fn answer_of(alloc: Global, status: u8, line: &[u8]) -> Result<(u8, Vec<u8>), AllocError>
    ensures { IfOk result (λ answer. (answer.0 ≡ status) × (answer.1.items ≡ line.now)) }
{
    Ok((status, Vec::from_slice(alloc, line)?))
}
