//! What the orders over a file get.

ghost use Rattle.outside.specs.Counts.{HasRisen};
ghost use Rattle.call_ends.specs.Calls.{IsAnswerOver};
ghost use Rattle.call_ends.specs.Replies.{AnswersWith};
ghost use Rattle.order_answers.specs.Answers.{report_text, IsAnswer, IsListing};
ghost use Rattle.order_answers.specs.CertsText.{certs_text};
ghost use Rattle.order_answers.specs.NarrowAnswers.{AnswersNarrow};
ghost use Rattle.order_answers.specs.RefuteAnswers.{AnswersRefute};
ghost use Rattle.row_read.specs.Rows.{IsRowText};

use call_ends::{Reply, file_bytes, reply_of};
use flow_points::Point;
use order_answers::{
    answer_to_analyse, answer_to_cert, answer_to_list, answer_to_narrow, answer_to_refute,
};
use outside::Files;
use std::alloc::Global;

/// What `analyse FILE --track LIST` gets.
pub fn reply_to_analyse<F: Files>(alloc: Global, files: &mut F, file: &str, list: &str) -> Reply
    ensures { AnswersWith (IsAnswerOver (F.contents files.old file.now) (IsAnswer report_text list.now))
        (HasRisen (F.faults files.old file.now) (F.faults files.new file.now)) result }
{
    match file_bytes(alloc, files, file) {
        Ok(bytes) => reply_of(answer_to_analyse(alloc, &bytes, list)),
        Err(reply) => reply,
    }
}

/// What `cert FILE --track LIST` gets.
pub fn reply_to_cert<F: Files>(alloc: Global, files: &mut F, file: &str, list: &str) -> Reply
    ensures { AnswersWith (IsAnswerOver (F.contents files.old file.now) (IsAnswer certs_text list.now))
        (HasRisen (F.faults files.old file.now) (F.faults files.new file.now)) result }
{
    match file_bytes(alloc, files, file) {
        Ok(bytes) => reply_of(answer_to_cert(alloc, &bytes, list)),
        Err(reply) => reply,
    }
}

/// What `list FILE` gets.
pub fn reply_to_list<F: Files>(alloc: Global, files: &mut F, file: &str) -> Reply
    ensures { AnswersWith (IsAnswerOver (F.contents files.old file.now) IsListing)
        (HasRisen (F.faults files.old file.now) (F.faults files.new file.now)) result }
{
    match file_bytes(alloc, files, file) {
        Ok(bytes) => reply_of(answer_to_list(alloc, &bytes)),
        Err(reply) => reply,
    }
}

/// What `narrow FILE --track LIST` gets.
pub fn reply_to_narrow<F: Files>(alloc: Global, files: &mut F, file: &str, list: &str) -> Reply
    ensures { AnswersWith (IsAnswerOver (F.contents files.old file.now) (AnswersNarrow list.now))
        (HasRisen (F.faults files.old file.now) (F.faults files.new file.now)) result }
{
    match file_bytes(alloc, files, file) {
        Ok(bytes) => reply_of(answer_to_narrow(alloc, &bytes, list)),
        Err(reply) => reply,
    }
}

/// What `refute FILE --track LIST --at POINT --row ROW` gets, for the texts of a point and of a row.
pub fn reply_to_refute<F: Files>(
    alloc: Global,
    files: &mut F,
    file: &str,
    list: &str,
    at: Point,
    row: &str,
) -> Reply
    requires { IsRowText row.now }
    ensures { AnswersWith (IsAnswerOver (F.contents files.old file.now) (AnswersRefute list.now at row.now))
        (HasRisen (F.faults files.old file.now) (F.faults files.new file.now)) result }
{
    match file_bytes(alloc, files, file) {
        Ok(bytes) => reply_of(answer_to_refute(alloc, &bytes, list, at, row)),
        Err(reply) => reply,
    }
}
