//! What `gen N --track LIST` answers.

ghost use Rattle.std.specs.Prelude.{◌≤◌, length, IfOk};
ghost use Rattle.analyser_core.specs.Accepted.{most_bytes};
ghost use Rattle.order_answers.specs.Answers.{IsAnswer, IsGenAnswer};
ghost use Rattle.order_answers.specs.GenText.{gen_text};

use crate::causes::refusal_line;
use crate::gen_text::write_summary;
use analyser_core::analyse_uncounted;
use gen_elf::{GenRefusal, generate};
use refusal_lines::value_line;
use std::alloc::{AllocError, Global};

/// What `gen N --track LIST` answers.
pub fn answer_to_gen(alloc: Global, n: u32, list: &str) -> Result<(u8, Vec<u8>), AllocError>
    ensures { IfOk result (λ answer. IsGenAnswer n list.now answer.0 answer.1.items) }
{
    match generate(alloc, n) {
        Ok(bytes) => summary_over(alloc, n, &bytes, list),
        Err(GenRefusal::Range(n)) => Ok((1, value_line(alloc, b"Range", u64::from(n))?)),
        Err(GenRefusal::Memory) => Err(AllocError),
    }
}

fn summary_over(
    alloc: Global,
    n: u32,
    bytes: &[u8],
    list: &str,
) -> Result<(u8, Vec<u8>), AllocError>
    requires { length bytes.now ≤ most_bytes }
    ensures { IfOk result (λ answer. IsAnswer (gen_text n bytes.now) list.now bytes.now answer.0 answer.1.items) }
{
    match analyse_uncounted(alloc, bytes, list) {
        Ok(analysis) => Ok((0, write_summary(alloc, n, bytes, &analysis.report)?)),
        Err(refusal) => Ok((1, refusal_line(alloc, bytes, refusal)?)),
    }
}
