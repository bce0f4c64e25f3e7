//! What `refute FILE --track LIST --at POINT --row ROW` answers.

ghost use Rattle.std.specs.Prelude.{◌≡◌, ◌≤◌, length, IfOk};
ghost use Rattle.analyser_core.specs.Accepted.{most_bytes};
ghost use Rattle.row_read.specs.Rows.{IsRowText};
ghost use Rattle.order_answers.specs.RefuteAnswers.{AnswersRefute, no_point_line, row_line};

use crate::causes::refusal_line;
use flow_points::Point;
use number_text::push_hex;
use refusal_lines::value_line;
use refute_answers::{RefuteRefusal, refute_row};
use row_read::RowRefusal;
use std::alloc::{AllocError, Global};

/// What `refute FILE --track LIST --at POINT --row ROW` answers over a file with these bytes.
pub fn answer_to_refute(
    alloc: Global,
    bytes: &[u8],
    list: &str,
    at: Point,
    row: &str,
) -> Result<(u8, Vec<u8>), AllocError>
    requires short { length bytes.now ≤ most_bytes }
    requires row { IsRowText row.now }
    ensures { IfOk result (λ answer. AnswersRefute list.now at row.now bytes.now answer.0 answer.1.items) }
{
    match refute_row(alloc, bytes, list, at, row) {
        Ok(text) => Ok((0, text)),
        Err(RefuteRefusal::File(refusal)) => Ok((1, refusal_line(alloc, bytes, refusal)?)),
        Err(RefuteRefusal::NoSuchPoint(address)) => Ok((1, no_point_line(alloc, address)?)),
        Err(RefuteRefusal::Row(refusal)) => Ok((1, row_line(alloc, refusal)?)),
    }
}

// The line of a point that is none of the file's.
fn no_point_line(alloc: Global, address: u64) -> Result<Vec<u8>, AllocError>
    ensures { IfOk result (λ line. line.items ≡ no_point_line address) }
{
    let mut line = Vec::from_slice(alloc, b"refused NoSuchPoint ")?;
    push_hex(&mut line, address)?;
    line.extend_from_slice(b"\n")?;
    Ok(line)
}

// The line of a text that is no row over the names.
fn row_line(alloc: Global, refusal: RowRefusal) -> Result<Vec<u8>, AllocError>
    ensures { IfOk result (λ line. line.items ≡ row_line refusal) }
{
    match refusal {
        RowRefusal::UnknownName(place) => value_line(alloc, b"row UnknownName", place),
        RowRefusal::Order(place) => value_line(alloc, b"row Order", place),
    }
}
