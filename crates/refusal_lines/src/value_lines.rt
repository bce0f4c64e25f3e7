//! Lines with one value.

ghost use Rattle.std.specs.Prelude.{◌≡◌, IfOk};
ghost use Rattle.number_text.specs.Numerals.{dec};
ghost use Rattle.refusal_lines.specs.Lines.{valued, refused};

use number_text::push_dec;
use std::alloc::{AllocError, Global};

/// The line of a refusal with one value.
pub fn value_line(alloc: Global, name: &[u8], value: u64) -> Result<Vec<u8>, AllocError>
    ensures { IfOk result (λ line. line.items ≡ refused (valued name.now (dec value))) }
{
    let mut line = Vec::from_slice(alloc, b"refused ")?;
    line.extend_from_slice(name)?;
    line.extend_from_slice(b" ")?;
    push_dec(&mut line, value)?;
    line.extend_from_slice(b"\n")?;
    Ok(line)
}
