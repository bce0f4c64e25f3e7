//! What `analyse FILE --track LIST` answers.

ghost use Rattle.std.specs.Prelude.{◌≤◌, length, IfOk};
ghost use Rattle.analyser_core.specs.Accepted.{most_bytes};
ghost use Rattle.order_answers.specs.Answers.{report_text, IsAnswer};

use crate::causes::refusal_line;
use analyser_core::analyse_uncounted;
use report_text::write_report;
use std::alloc::{AllocError, Global};

/// What `analyse FILE --track LIST` answers over a file with these bytes.
pub fn answer_to_analyse(
    alloc: Global,
    bytes: &[u8],
    list: &str,
) -> Result<(u8, Vec<u8>), AllocError>
    requires { length bytes.now ≤ most_bytes }
    ensures { IfOk result (λ answer. IsAnswer report_text list.now bytes.now answer.0 answer.1.items) }
{
    match analyse_uncounted(alloc, bytes, list) {
        Ok(analysis) => Ok((0, write_report(alloc, &analysis.report)?)),
        Err(refusal) => Ok((1, refusal_line(alloc, bytes, refusal)?)),
    }
}
