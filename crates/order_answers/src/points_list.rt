//! The list of points, as text.

ghost use Rattle.std.specs.Prelude.{◌≡◌, ◌++◌, All, IfOk, OnOk};
ghost use Rattle.rv_decode.specs.Instructions.{IsWellFormed};
ghost use Rattle.order_answers.specs.PointsList.{code_text, list_text};

use flow_points::laws::instructions_are_in_range;
use flow_points::{CodePoint, Points};
use number_text::push_hex;
use report_text::push_opening;
use rv_text::{push_word, write_instr};
use std::alloc::{AllocError, Global};

/// The text of the list.
pub fn write_list(alloc: Global, points: &Points) -> Result<Vec<u8>, AllocError>
    ensures { IfOk result (λ text. text.items ≡ list_text points.now.points) }
{
    known_codes(points);
    let mut text = Vec::from_slice(alloc, b"affine-list 1\n")?;
    let mut before = None;
    for i in 0..points.count() {
        let code = points.code(i);
        push_opening(&mut text, before, code.point.proc_entry)?;
        push_code(alloc, &mut text, &code)?;
        before = Some(code.point.proc_entry);
    }
    text.extend_from_slice(b"end\n")?;
    Ok(text)
}

fn push_code(alloc: Global, text: &mut Vec<u8>, code: &CodePoint) -> Result<(), AllocError>
    requires { IsWellFormed code.now.instr }
    ensures { OnOk result (text.new.items ≡ text.old.items ++ code_text code.now) }
{
    push_hex(text, code.point.address)?;
    text.extend_from_slice(b" ")?;
    push_word(text, code.word, code.length)?;
    text.extend_from_slice(b" ")?;
    let instr = write_instr(alloc, &code.instr)?;
    text.extend_from_slice(instr.as_bytes())?;
    text.extend_from_slice(b"\n")
}

// What the code of points keeps.
fn known_codes(points: &Points)
    ensures { All (λ code. IsWellFormed code.instr) points.now.points }
{
    points.known();
    instructions_are_in_range();
}
