//! Names.

ghost use Rattle.std.specs.Prelude.{◌≡◌, ◌≤◌, ◌++◌, false, IfOk, OnOk};
ghost use Rattle.abi_text.specs.Names.{label, padded, wider, widest, is_next, close, turned, runs};

use abi_lines::push_register;
use abi_routines::Routine;
use elf_image::Symbol;
use number_text::push_hex;
use std::alloc::{AllocError, Global};

const BLANKS: &[u8] = b"                                ";

/// Appends the name of a procedure, or its address where it has none.
pub(crate) fn push_label(text: &mut Vec<u8>, symbols: &[Symbol], p: u64) -> Result<(), AllocError>
    ensures { OnOk result (text.new.items ≡ text.old.items ++ label symbols.now p) }
{
    for symbol in symbols {
        if symbol.value == p {
            return text.extend_from_slice(symbol.name.as_slice());
        }
    }
    push_hex(text, p)
}

/// The name of a procedure, or its address.
pub(crate) fn label_of(alloc: Global, symbols: &[Symbol], p: u64) -> Result<Vec<u8>, AllocError>
    ensures { IfOk result (λ name. name.items ≡ label symbols.now p) }
{
    let mut name = Vec::new(alloc);
    push_label(&mut name, symbols, p)?;
    Ok(name)
}

/// Appends a text in a column of this width.
pub(crate) fn push_padded(text: &mut Vec<u8>, width: usize, one: &[u8]) -> Result<(), AllocError>
    requires { width ≤ 32 }
    ensures { OnOk result (text.new.items ≡ text.old.items ++ padded width one.now) }
{
    text.extend_from_slice(one)?;
    if one.len() < width {
        text.extend_from_slice(&BLANKS[..width - one.len()])
    } else {
        Ok(())
    }
}

fn wider(width: usize, n: usize) -> usize
    requires { width ≤ 32 }
    ensures is { result ≡ wider width n }
    ensures narrow { result ≤ 32 }
{
    if width < n {
        if n < 32 { n } else { 32 }
    } else {
        width
    }
}

/// The width of the column of names.
pub(crate) fn widest(
    alloc: Global,
    symbols: &[Symbol],
    width: usize,
    routines: &[Routine],
) -> Result<usize, AllocError>
    requires { width ≤ 32 }
    ensures is { IfOk result (λ w. w ≡ widest symbols.now width routines.now) }
    ensures narrow { IfOk result (λ w. w ≤ 32) }
{
    let mut all = width;
    for routine in routines {
        let name = label_of(alloc, symbols, routine.procedure)?;
        all = wider(all, name.len());
    }
    Ok(all)
}

fn is_next(r: u8, q: u8) -> bool
    ensures { result ≡ is_next r q }
{
    r == 8 && q == 9 || r == 9 && q == 18 || 18 <= r && r < 27 && q == r + 1
}

fn push_close(text: &mut Vec<u8>, last: u8, begun: bool) -> Result<(), AllocError>
    ensures { OnOk result (text.new.items ≡ text.old.items ++ close last begun) }
{
    if !begun {
        return Ok(());
    }
    text.extend_from_slice(b"-")?;
    push_register(text, last)
}

fn push_turned(text: &mut Vec<u8>, last: u8, begun: bool, r: u8) -> Result<(), AllocError>
    ensures { OnOk result (text.new.items ≡ text.old.items ++ turned last begun r) }
{
    if is_next(last, r) {
        return Ok(());
    }
    push_close(text, last, begun)?;
    text.extend_from_slice(b" ")?;
    push_register(text, r)
}

/// Appends registers, each behind a blank; of those that follow one another the first and the last.
pub(crate) fn push_runs(text: &mut Vec<u8>, registers: &[u8]) -> Result<(), AllocError>
    ensures { OnOk result (text.new.items ≡ text.old.items ++ runs 0 false registers.now) }
{
    let mut last = 0;
    let mut begun = false;
    for r in registers {
        push_turned(text, last, begun, *r)?;
        begun = is_next(last, *r);
        last = *r;
    }
    push_close(text, last, begun)
}
