//! Verdicts as text.

ghost use Rattle.std.specs.Prelude.{◌≡◌, ◌+◌, ◌<◌, ◌^◌, ◌++◌, length, IfOk, OnOk};
ghost use Rattle.number_text.specs.Numerals.{dec, hex};
ghost use Rattle.verdict_text.specs.Text.{stop_text, found_line, found_lines, verdict_text, has_found};

use number_text::{push_dec, push_hex};
use run_watch::{Found, RunStop, RunVerdict};
use std::alloc::{AllocError, Global};

/// The text of a verdict, whose watches are of the kinds 1, 2 and so on. The error is want of memory.
pub fn write_verdict(alloc: Global, verdict: &RunVerdict) -> Result<Vec<u8>, AllocError>
    ensures { IfOk result (λ text. text.items ≡ verdict_text verdict.now) }
{
    let mut text = Vec::from_slice(alloc, b"affine-run 1\nsteps ")?;
    push_dec(&mut text, verdict.steps)?;
    text.extend_from_slice(b"\nstop ")?;
    push_stop(&mut text, verdict.stop)?;
    text.extend_from_slice(b"\n")?;
    push_found(&mut text, 1, verdict.found.as_slice())?;
    text.extend_from_slice(b"end\n")?;
    Ok(text)
}

/// Whether some watch found something.
pub fn has_found(found: &[Option<Found>]) -> bool
    ensures { result ≡ has_found found.now }
{
    found.iter().any(|f| f.is_some())
}

fn push_stop(text: &mut Vec<u8>, stop: RunStop) -> Result<(), AllocError>
    ensures { OnOk result (text.new.items ≡ text.old.items ++ stop_text stop) }
{
    match stop {
        RunStop::Exit(a0) => push_valued_dec(text, b"exit ", a0),
        RunStop::Break(pc) => push_valued_hex(text, b"break ", pc),
        RunStop::Ecall(a7) => push_valued_dec(text, b"ecall ", a7),
        RunStop::Budget => text.extend_from_slice(b"budget"),
        RunStop::Left(pc) => push_valued_hex(text, b"left ", pc),
        RunStop::Depth(most) => push_valued_dec(text, b"depth ", u64::from(most)),
    }
}

fn push_valued_dec(text: &mut Vec<u8>, name: &[u8], value: u64) -> Result<(), AllocError>
    ensures { OnOk result (text.new.items ≡ text.old.items ++ name.now ++ dec value) }
{
    text.extend_from_slice(name)?;
    push_dec(text, value)
}

fn push_valued_hex(text: &mut Vec<u8>, name: &[u8], value: u64) -> Result<(), AllocError>
    ensures { OnOk result (text.new.items ≡ text.old.items ++ name.now ++ hex value) }
{
    text.extend_from_slice(name)?;
    push_hex(text, value)
}

// What the watches of this kind and of the following ones found.
fn push_found(text: &mut Vec<u8>, kind: u64, found: &[Option<Found>]) -> Result<(), AllocError>
    requires { kind + length found.now < 2 ^ 64 }
    ensures { OnOk result (text.new.items ≡ text.old.items ++ found_lines kind found.now) }
{
    match found {
        [] => Ok(()),
        [first, later @ ..] => {
            push_found_line(text, kind, *first)?;
            push_found(text, kind + 1, later)
        }
    }
}

fn push_found_line(text: &mut Vec<u8>, kind: u64, found: Option<Found>) -> Result<(), AllocError>
    ensures { OnOk result (text.new.items ≡ text.old.items ++ found_line kind found) }
{
    let Some(found) = found else {
        return Ok(());
    };
    push_valued_dec(text, b"found ", kind)?;
    push_valued_dec(text, b" step ", found.index)?;
    push_valued_hex(text, b" at ", found.address)?;
    push_valued_hex(text, b" detail ", found.detail)?;
    text.extend_from_slice(b"\n")
}
