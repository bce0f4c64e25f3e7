//! What `list FILE` answers.

ghost use Rattle.std.specs.Prelude.{◌≤◌, length, IfOk};
ghost use Rattle.analyser_core.specs.Accepted.{most_bytes};
ghost use Rattle.order_answers.specs.Answers.{IsListing};

use crate::file_code::{code_of, refused};
use crate::points_list::write_list;
use std::alloc::{AllocError, Global};

/// What `list FILE` answers over a file with these bytes.
pub fn answer_to_list(alloc: Global, bytes: &[u8]) -> Result<(u8, Vec<u8>), AllocError>
    requires { length bytes.now ≤ most_bytes }
    ensures { IfOk result (λ answer. IsListing bytes.now answer.0 answer.1.items) }
{
    match code_of(alloc, bytes) {
        Ok((_, points)) => Ok((0, write_list(alloc, &points)?)),
        Err(refusal) => refused(alloc, bytes, refusal),
    }
}
