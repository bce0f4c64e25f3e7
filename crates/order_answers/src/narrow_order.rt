//! What `narrow FILE --track LIST` answers.

ghost use Rattle.std.specs.Prelude.{◌≤◌, length, IfOk};
ghost use Rattle.analyser_core.specs.Accepted.{most_bytes};
ghost use Rattle.order_answers.specs.NarrowAnswers.{AnswersNarrow};

use crate::causes::refusal_line;
use narrow_words::{narrow_analyse_uncounted, narrow_text};
use std::alloc::{AllocError, Global};

/// What `narrow FILE --track LIST` answers over a file with these bytes.
pub fn answer_to_narrow(
    alloc: Global,
    bytes: &[u8],
    list: &str,
) -> Result<(u8, Vec<u8>), AllocError>
    requires { length bytes.now ≤ most_bytes }
    ensures { IfOk result (λ answer. AnswersNarrow list.now bytes.now answer.0 answer.1.items) }
{
    match narrow_analyse_uncounted(alloc, bytes, list) {
        Ok(report) => Ok((0, narrow_text(alloc, &report)?)),
        Err(refusal) => Ok((1, refusal_line(alloc, bytes, refusal)?)),
    }
}
