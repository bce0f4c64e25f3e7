//! Routines, part by part.

ghost use Rattle.std.specs.Prelude.{◌≡◌, ◌≤◌, ◌++◌, IfOk, OnOk};
ghost use Rattle.entry_tables.specs.Settling.{AreLined};
ghost use Rattle.abi_text.specs.Texts.{named_text, head_text, block_text, named_callee, callee_line, is_some_callee, is_by_callee, is_in, part_text, told_in_part, all_in};

use crate::findings::{push_findings, push_kept_mark};
use crate::names::{label_of, push_label, push_padded};
use crate::parts::Part;
use crate::standings::{
    is_clobbered, is_kept, is_never, is_shown, is_unknown, only_callee, tally_in,
};
use abi_lines::push_known_mark;
use abi_routines::{Finding, Routine};
use elf_image::{Image, Symbol};
use entry_tables::Rows;
use number_text::{push_dec, push_hex};
use std::alloc::{AllocError, Global};

fn push_named(
    alloc: Global,
    text: &mut Vec<u8>,
    symbols: &[Symbol],
    width: usize,
    p: u64,
) -> Result<(), AllocError>
    requires { width ≤ 32 }
    ensures { OnOk result (text.new.items ≡ text.old.items ++ named_text symbols.now width p) }
{
    let name = label_of(alloc, symbols, p)?;
    push_padded(text, width, &name)?;
    text.extend_from_slice(b" ")?;
    push_hex(text, p)
}

fn push_head(
    alloc: Global,
    text: &mut Vec<u8>,
    symbols: &[Symbol],
    width: usize,
    routine: &Routine,
) -> Result<(), AllocError>
    requires { width ≤ 32 }
    ensures { OnOk result (text.new.items ≡ text.old.items ++ head_text symbols.now width routine.now) }
{
    push_named(alloc, text, symbols, width, routine.procedure)?;
    text.extend_from_slice(b"  frame ")?;
    push_dec(text, routine.depth.bytes)?;
    push_known_mark(text, routine.depth.known)
}

fn push_block(
    alloc: Global,
    text: &mut Vec<u8>,
    image: &Image,
    rows: &Rows,
    why: bool,
    routines: &[Routine],
    width: usize,
    routine: &Routine,
) -> Result<(), AllocError>
    requires narrow { width ≤ 32 }
    requires lined { AreLined image.now rows.now.points }
    ensures { OnOk result (text.new.items ≡ text.old.items ++ block_text image.now rows.now why routines.now width routine.now) }
{
    let found = routine.findings.as_slice();
    push_head(alloc, text, image.symbols.as_slice(), width, routine)?;
    push_findings(alloc, text, image, rows, why, routines, found)?;
    push_kept_mark(alloc, text, found)?;
    text.extend_from_slice(b"\n")
}

fn push_named_callee(
    text: &mut Vec<u8>,
    symbols: &[Symbol],
    p: u64,
    callee: Option<u64>,
) -> Result<(), AllocError>
    ensures { OnOk result (text.new.items ≡ text.old.items ++ named_callee symbols.now p callee) }
{
    let Some(q) = callee else {
        return Ok(());
    };
    text.extend_from_slice(b"unknown by callee: ")?;
    push_label(text, symbols, p)?;
    text.extend_from_slice(b" (")?;
    push_label(text, symbols, q)?;
    text.extend_from_slice(b")\n")
}

fn push_callee_line(
    alloc: Global,
    text: &mut Vec<u8>,
    image: &Image,
    rows: &Rows,
    routine: &Routine,
) -> Result<(), AllocError>
    requires { AreLined image.now rows.now.points }
    ensures { OnOk result (text.new.items ≡ text.old.items ++ callee_line image.now rows.now routine.now) }
{
    let callee = only_callee(alloc, image, rows, routine.findings.as_slice())?;
    push_named_callee(text, image.symbols.as_slice(), routine.procedure, callee)
}

fn is_some_callee(callee: Option<u64>) -> bool
    ensures { result ≡ is_some_callee callee }
{
    match callee {
        Some(_) => true,
        None => false,
    }
}

fn is_by_callee(
    alloc: Global,
    image: &Image,
    rows: &Rows,
    found: &[Finding],
) -> Result<bool, AllocError>
    requires { AreLined image.now rows.now.points }
    ensures { IfOk result (λ b. b ≡ is_by_callee image.now rows.now found.now) }
{
    let callee = only_callee(alloc, image, rows, found)?;
    Ok(is_some_callee(callee))
}

fn is_in(
    alloc: Global,
    image: &Image,
    rows: &Rows,
    routines: &[Routine],
    part: Part,
    found: &[Finding],
) -> Result<bool, AllocError>
    requires { AreLined image.now rows.now.points }
    ensures { IfOk result (λ b. b ≡ is_in image.now rows.now routines.now part found.now) }
{
    let tally = tally_in(found);
    match part {
        Part::Faults => Ok(is_clobbered(tally) && is_shown(routines, found)),
        Part::Open => {
            let by = is_by_callee(alloc, image, rows, found)?;
            Ok(is_unknown(tally) && !by)
        }
        Part::ByCallee => {
            let by = is_by_callee(alloc, image, rows, found)?;
            Ok(is_unknown(tally) && by)
        }
        Part::Whole => Ok(is_kept(tally)),
        Part::Endless => Ok(is_never(tally)),
    }
}

fn push_part(
    alloc: Global,
    text: &mut Vec<u8>,
    image: &Image,
    rows: &Rows,
    why: bool,
    routines: &[Routine],
    width: usize,
    part: Part,
    routine: &Routine,
) -> Result<(), AllocError>
    requires narrow { width ≤ 32 }
    requires lined { AreLined image.now rows.now.points }
    ensures { OnOk result (text.new.items ≡ text.old.items ++ part_text image.now rows.now why routines.now width part routine.now) }
{
    let symbols = image.symbols.as_slice();
    match part {
        Part::Faults | Part::Open => push_block(
            alloc, text, image, rows, why, routines, width, routine,
        ),
        Part::ByCallee => push_callee_line(alloc, text, image, rows, routine),
        Part::Whole => {
            push_head(alloc, text, symbols, width, routine)?;
            text.extend_from_slice(b"\n")
        }
        Part::Endless => {
            push_named(alloc, text, symbols, width, routine.procedure)?;
            text.extend_from_slice(b"\n")
        }
    }
}

fn push_told(
    alloc: Global,
    text: &mut Vec<u8>,
    image: &Image,
    rows: &Rows,
    why: bool,
    routines: &[Routine],
    width: usize,
    part: Part,
    routine: &Routine,
) -> Result<(), AllocError>
    requires narrow { width ≤ 32 }
    requires lined { AreLined image.now rows.now.points }
    ensures { OnOk result (text.new.items ≡ text.old.items ++ told_in_part image.now rows.now why routines.now width part routine.now) }
{
    let is = is_in(
        alloc,
        image,
        rows,
        routines,
        part,
        routine.findings.as_slice(),
    )?;
    if !is {
        return Ok(());
    }
    push_part(
        alloc, text, image, rows, why, routines, width, part, routine,
    )
}

/// Appends what is told of routines in a part of the text.
pub(crate) fn push_all_in(
    alloc: Global,
    text: &mut Vec<u8>,
    image: &Image,
    rows: &Rows,
    why: bool,
    routines: &[Routine],
    width: usize,
    part: Part,
) -> Result<(), AllocError>
    requires narrow { width ≤ 32 }
    requires lined { AreLined image.now rows.now.points }
    ensures { OnOk result (text.new.items ≡ text.old.items ++ all_in image.now rows.now why routines.now width part routines.now) }
{
    for routine in routines {
        push_told(
            alloc, text, image, rows, why, routines, width, part, routine,
        )?;
    }
    Ok(())
}
