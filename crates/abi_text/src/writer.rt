//! The text.

ghost use Rattle.std.specs.Prelude.{◌≡◌, ◌≤◌, ◌++◌, codes, length, IfOk, OnOk};
ghost use Rattle.entry_tables.specs.Settling.{AreLined};
ghost use Rattle.abi_text.specs.Texts.{procedures_text, never_text, counts_text, first_line, titled, all_in, width_of, routines_text, assumed_text, people_text};

use crate::names::widest;
use crate::parts::Part;
use crate::premises::push_premises;
use crate::sections::push_all_in;
use crate::standings::standings;
use abi_lines::Tally;
use abi_premises::Assumption;
use abi_routines::Routine;
use elf_image::Image;
use entry_tables::Rows;
use number_text::push_dec;
use std::alloc::{AllocError, Global};

/// The text of what is told of routines of the file of this name, and of what is assumed; with the ways to faults and
/// the addresses of premises, where `why` is true.
pub fn write_text(
    alloc: Global,
    file: &[u8],
    image: &Image,
    rows: &Rows,
    routines: &[Routine],
    assumed: &[Assumption],
    why: bool,
) -> Result<Vec<u8>, AllocError>
    requires { AreLined image.now rows.now.points }
    ensures { IfOk result (λ text. text.items ≡ people_text file.now image.now rows.now routines.now assumed.now why) }
{
    let width = widest(alloc, image.symbols.as_slice(), 8, routines)?;
    let mut text = Vec::new(alloc);
    push_first_line(&mut text, file, routines)?;
    text.extend_from_slice(b"\n")?;
    push_routines(alloc, &mut text, image, rows, why, routines, width)?;
    push_assumed(&mut text, why, assumed)?;
    Ok(text)
}

#[tactic(auto, unfolding(crate::specs::Texts::procedures_text))]
fn push_procedures(text: &mut Vec<u8>, n: u64) -> Result<(), AllocError>
    ensures { OnOk result (text.new.items ≡ text.old.items ++ procedures_text n) }
{
    push_dec(text, n)?;
    if n == 1 {
        text.extend_from_slice(b" procedure, ")
    } else {
        text.extend_from_slice(b" procedures, ")
    }
}

#[tactic(auto, unfolding(crate::specs::Texts::never_text))]
fn push_never(text: &mut Vec<u8>, n: u64) -> Result<(), AllocError>
    ensures { OnOk result (text.new.items ≡ text.old.items ++ never_text n) }
{
    push_dec(text, n)?;
    if n == 1 {
        text.extend_from_slice(b" never returns")
    } else {
        text.extend_from_slice(b" never return")
    }
}

fn push_counts(text: &mut Vec<u8>, n: u64, tally: Tally) -> Result<(), AllocError>
    ensures { OnOk result (text.new.items ≡ text.old.items ++ counts_text n tally) }
{
    push_procedures(text, n)?;
    push_dec(text, tally.kept)?;
    text.extend_from_slice(b" kept, ")?;
    push_dec(text, tally.clobbered)?;
    text.extend_from_slice(b" clobbered, ")?;
    push_dec(text, tally.unknown)?;
    text.extend_from_slice(b" unknown, ")?;
    push_never(text, tally.never)?;
    text.extend_from_slice(b"\n")
}

fn push_first_line(text: &mut Vec<u8>, file: &[u8], routines: &[Routine]) -> Result<(), AllocError>
    ensures { OnOk result (text.new.items ≡ text.old.items ++ first_line file.now routines.now) }
{
    text.extend_from_slice(file)?;
    text.extend_from_slice(b": ")?;
    push_counts(text, routines.len() as u64, standings(routines))
}

fn push_titled(text: &mut Vec<u8>, title: &[u8], part: &[u8]) -> Result<(), AllocError>
    ensures { OnOk result (text.new.items ≡ text.old.items ++ titled title.now part.now) }
{
    if part.is_empty() {
        return Ok(());
    }
    text.extend_from_slice(title)?;
    text.extend_from_slice(b"\n")?;
    text.extend_from_slice(part)
}

fn push_section(
    alloc: Global,
    text: &mut Vec<u8>,
    image: &Image,
    rows: &Rows,
    why: bool,
    routines: &[Routine],
    width: usize,
    part: Part,
    title: &[u8],
) -> Result<(), AllocError>
    requires narrow { width ≤ 32 }
    requires lined { AreLined image.now rows.now.points }
    ensures { OnOk result (text.new.items ≡ text.old.items ++ titled title.now (all_in image.now rows.now why routines.now width part routines.now)) }
{
    let mut all = Vec::new(alloc);
    push_all_in(alloc, &mut all, image, rows, why, routines, width, part)?;
    push_titled(text, title, &all)
}

fn push_routines(
    alloc: Global,
    text: &mut Vec<u8>,
    image: &Image,
    rows: &Rows,
    why: bool,
    routines: &[Routine],
    width: usize,
) -> Result<(), AllocError>
    requires narrow { width ≤ 32 }
    requires lined { AreLined image.now rows.now.points }
    ensures { OnOk result (text.new.items ≡ text.old.items ++ routines_text image.now rows.now why routines.now width) }
{
    push_section(
        alloc,
        text,
        image,
        rows,
        why,
        routines,
        width,
        Part::Faults,
        b"CLOBBERED",
    )?;
    push_section(
        alloc,
        text,
        image,
        rows,
        why,
        routines,
        width,
        Part::Open,
        b"unknown",
    )?;
    push_all_in(
        alloc,
        text,
        image,
        rows,
        why,
        routines,
        width,
        Part::ByCallee,
    )?;
    push_section(
        alloc,
        text,
        image,
        rows,
        why,
        routines,
        width,
        Part::Whole,
        b"kept",
    )?;
    push_section(
        alloc,
        text,
        image,
        rows,
        why,
        routines,
        width,
        Part::Endless,
        b"never returns",
    )
}

fn push_assumed(text: &mut Vec<u8>, why: bool, assumed: &[Assumption]) -> Result<(), AllocError>
    ensures { OnOk result (text.new.items ≡ text.old.items ++ assumed_text why assumed.now) }
{
    text.extend_from_slice(
        b"\nassumed of runs\n  code isn't written over\n  the stack doesn't wrap\n",
    )?;
    push_premises(text, why, assumed)
}
