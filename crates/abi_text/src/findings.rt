//! What is told of registers.

ghost use Rattle.std.specs.Prelude.{◌≡◌, ◌++◌, false, IfOk, OnOk};
ghost use Rattle.entry_tables.specs.Settling.{AreLined};
ghost use Rattle.abi_text.specs.Findings.{where_text, taken_mark, step_text, way_steps, way_text, also_lead, also_end, has_too, also_one, also_names, fault_text, return_text, clobbered_text, is_by_cause, first_with, if_so, registers_with, unknown_text, verdict_text, finding_text, findings_text, is_kept, kept_in, kept_words, kept_mark};

use crate::names::{push_label, push_padded, push_runs};
use crate::places::{push_instr, turned_at};
use crate::reasons::{push_value_words, push_why_words, same_cause};
use crate::standings::{has_fault, is_told_elsewhere};
use abi_routines::{Finding, Routine};
use abi_verdicts::{Cause, Fault, Verdict};
use elf_image::{Image, Symbol};
use entry_tables::Rows;
use number_text::push_hex;
use std::alloc::{AllocError, Global};

fn push_where(
    alloc: Global,
    text: &mut Vec<u8>,
    image: &Image,
    rows: &Rows,
    p: u64,
    registers: &[u8],
    a: u64,
) -> Result<(), AllocError>
    requires { AreLined image.now rows.now.points }
    ensures { OnOk result (text.new.items ≡ text.old.items ++ where_text image.now rows.now p registers.now a) }
{
    let mut names = Vec::new(alloc);
    push_runs(&mut names, registers)?;
    let mut instr = Vec::new(alloc);
    push_instr(alloc, &mut instr, image, rows, p, a)?;
    text.extend_from_slice(b"\n ")?;
    push_padded(text, 5, &names)?;
    text.extend_from_slice(b" at ")?;
    push_hex(text, a)?;
    text.extend_from_slice(b"  ")?;
    push_padded(text, 15, &instr)?;
    text.extend_from_slice(b" ")
}

fn push_taken(text: &mut Vec<u8>, taken: bool) -> Result<(), AllocError>
    ensures { OnOk result (text.new.items ≡ text.old.items ++ taken_mark taken) }
{
    if taken {
        text.extend_from_slice(b" (taken)")
    } else {
        Ok(())
    }
}

fn push_step(text: &mut Vec<u8>, taken: bool, b: u64) -> Result<(), AllocError>
    ensures { OnOk result (text.new.items ≡ text.old.items ++ step_text taken b) }
{
    push_taken(text, taken)?;
    text.extend_from_slice(b" ")?;
    push_hex(text, b)
}

fn push_steps(
    text: &mut Vec<u8>,
    image: &Image,
    rows: &Rows,
    p: u64,
    walk: &[u64],
) -> Result<(), AllocError>
    requires { AreLined image.now rows.now.points }
    ensures { OnOk result (text.new.items ≡ text.old.items ++ way_steps rows.now p p walk.now) }
{
    let mut a = p;
    for b in walk {
        push_step(text, turned_at(image, rows, p, a, *b), *b)?;
        a = *b;
    }
    Ok(())
}

fn push_way(
    text: &mut Vec<u8>,
    image: &Image,
    rows: &Rows,
    why: bool,
    p: u64,
    walk: &[u64],
) -> Result<(), AllocError>
    requires { AreLined image.now rows.now.points }
    ensures { OnOk result (text.new.items ≡ text.old.items ++ way_text why rows.now p walk.now) }
{
    if !why {
        return Ok(());
    }
    text.extend_from_slice(b"\n       by ")?;
    push_hex(text, p)?;
    push_steps(text, image, rows, p, walk)
}

fn also_lead(told: bool) -> &'static str
    ensures { result.now ≡ also_lead told }
{
    if told { ", " } else { ", also in " }
}

fn also_end(told: bool) -> &'static str
    ensures { result.now ≡ also_end told }
{
    if told { " (jump)" } else { "" }
}

fn has_too(p: u64, r: u8, fault: Fault, routine: &Routine) -> bool
    ensures { result ≡ has_too p r fault routine.now }
{
    routine.procedure != p && has_fault(r, fault, routine.findings.as_slice())
}

fn push_also_one(
    text: &mut Vec<u8>,
    symbols: &[Symbol],
    has: bool,
    told: bool,
    q: u64,
) -> Result<(), AllocError>
    ensures { OnOk result (text.new.items ≡ text.old.items ++ also_one symbols.now has told q) }
{
    if !has {
        return Ok(());
    }
    text.extend_from_slice(also_lead(told).as_bytes())?;
    push_label(text, symbols, q)
}

fn push_also(
    text: &mut Vec<u8>,
    symbols: &[Symbol],
    p: u64,
    r: u8,
    fault: Fault,
    routines: &[Routine],
) -> Result<(), AllocError>
    ensures { OnOk result (text.new.items ≡ text.old.items ++ also_names symbols.now p r fault false routines.now) }
{
    let mut told = false;
    for routine in routines {
        let has = has_too(p, r, fault, routine);
        push_also_one(text, symbols, has, told, routine.procedure)?;
        told = told || has;
    }
    text.extend_from_slice(also_end(told).as_bytes())
}

#[tactic(auto, unfolding(crate::specs::Findings::fault_text))]
fn push_fault(
    alloc: Global,
    text: &mut Vec<u8>,
    image: &Image,
    rows: &Rows,
    why: bool,
    f: &Finding,
    fault: Fault,
) -> Result<(), AllocError>
    requires { AreLined image.now rows.now.points }
    ensures { OnOk result (text.new.items ≡ text.old.items ++ fault_text image.now rows.now why f.now fault) }
{
    let (p, changed) = (f.procedure, fault.changed);
    push_where(alloc, text, image, rows, p, &[f.register], changed)?;
    push_value_words(alloc, text, image, rows, p, changed, fault.value)?;
    push_way(text, image, rows, why, p, f.walk.as_slice())
}

#[tactic(auto, unfolding(crate::specs::Findings::return_text))]
fn push_return(
    text: &mut Vec<u8>,
    symbols: &[Symbol],
    routines: &[Routine],
    f: &Finding,
    fault: Fault,
) -> Result<(), AllocError>
    ensures { OnOk result (text.new.items ≡ text.old.items ++ return_text symbols.now routines.now f.now fault) }
{
    text.extend_from_slice(b"\n       returns at ")?;
    push_hex(text, fault.address)?;
    push_also(text, symbols, f.procedure, f.register, fault, routines)
}

fn push_clobbered(
    alloc: Global,
    text: &mut Vec<u8>,
    image: &Image,
    rows: &Rows,
    why: bool,
    routines: &[Routine],
    f: &Finding,
    fault: Fault,
) -> Result<(), AllocError>
    requires { AreLined image.now rows.now.points }
    ensures { OnOk result (text.new.items ≡ text.old.items ++ clobbered_text image.now rows.now why routines.now f.now fault) }
{
    if is_told_elsewhere(routines, f.procedure, f.register, fault) {
        return Ok(());
    }
    push_fault(alloc, text, image, rows, why, f, fault)?;
    push_return(text, image.symbols.as_slice(), routines, f, fault)
}

fn is_by_cause(cause: Cause, verdict: Verdict) -> bool
    ensures { result ≡ is_by_cause cause verdict }
{
    match verdict {
        Verdict::Unknown(other) => same_cause(cause, other),
        _ => false,
    }
}

fn first_with(cause: Cause, found: &[Finding]) -> u8
    ensures { result ≡ first_with cause found.now }
{
    for one in found {
        if is_by_cause(cause, one.verdict) {
            return one.register;
        }
    }
    0
}

fn push_if(registers: &mut Vec<u8>, is: bool, r: u8) -> Result<(), AllocError>
    ensures { OnOk result (registers.new.items ≡ registers.old.items ++ if_so is r) }
{
    if is {
        registers.push(r)?;
    }
    Ok(())
}

fn registers_with(alloc: Global, cause: Cause, found: &[Finding]) -> Result<Vec<u8>, AllocError>
    ensures { IfOk result (λ all. all.items ≡ registers_with cause found.now) }
{
    let mut all = Vec::new(alloc);
    for one in found {
        push_if(&mut all, is_by_cause(cause, one.verdict), one.register)?;
    }
    Ok(all)
}

fn push_unknown(
    alloc: Global,
    text: &mut Vec<u8>,
    image: &Image,
    rows: &Rows,
    found: &[Finding],
    f: &Finding,
    cause: Cause,
) -> Result<(), AllocError>
    requires { AreLined image.now rows.now.points }
    ensures { OnOk result (text.new.items ≡ text.old.items ++ unknown_text image.now rows.now found.now f.now cause) }
{
    if first_with(cause, found) != f.register {
        return Ok(());
    }
    let registers = registers_with(alloc, cause, found)?;
    let (p, a) = (f.procedure, cause.address);
    push_where(alloc, text, image, rows, p, &registers, a)?;
    push_why_words(alloc, text, image, rows, p, a, cause.why)
}

fn push_finding(
    alloc: Global,
    text: &mut Vec<u8>,
    image: &Image,
    rows: &Rows,
    why: bool,
    routines: &[Routine],
    found: &[Finding],
    f: &Finding,
) -> Result<(), AllocError>
    requires { AreLined image.now rows.now.points }
    ensures { OnOk result (text.new.items ≡ text.old.items ++ finding_text image.now rows.now why routines.now found.now f.now) }
{
    match f.verdict {
        Verdict::Clobbered(fault) => push_clobbered(
            alloc, text, image, rows, why, routines, f, fault,
        ),
        Verdict::Unknown(cause) => push_unknown(alloc, text, image, rows, found, f, cause),
        _ => Ok(()),
    }
}

/// Appends what is told of the registers of a routine that are clobbered or unknown.
pub(crate) fn push_findings(
    alloc: Global,
    text: &mut Vec<u8>,
    image: &Image,
    rows: &Rows,
    why: bool,
    routines: &[Routine],
    found: &[Finding],
) -> Result<(), AllocError>
    requires { AreLined image.now rows.now.points }
    ensures { OnOk result (text.new.items ≡ text.old.items ++ findings_text image.now rows.now why routines.now found.now found.now) }
{
    for f in found {
        push_finding(alloc, text, image, rows, why, routines, found, f)?;
    }
    Ok(())
}

fn is_kept(verdict: Verdict) -> bool
    ensures { result ≡ is_kept verdict }
{
    match verdict {
        Verdict::Kept => true,
        _ => false,
    }
}

fn kept_in(alloc: Global, found: &[Finding]) -> Result<Vec<u8>, AllocError>
    ensures { IfOk result (λ all. all.items ≡ kept_in found.now) }
{
    let mut all = Vec::new(alloc);
    for one in found {
        push_if(&mut all, is_kept(one.verdict), one.register)?;
    }
    Ok(all)
}

fn push_kept(text: &mut Vec<u8>, registers: &[u8]) -> Result<(), AllocError>
    ensures { OnOk result (text.new.items ≡ text.old.items ++ kept_words registers.now) }
{
    if registers.is_empty() {
        return Ok(());
    }
    text.extend_from_slice(b"; kept:")?;
    push_runs(text, registers)
}

/// Appends which registers of a routine are kept.
pub(crate) fn push_kept_mark(
    alloc: Global,
    text: &mut Vec<u8>,
    found: &[Finding],
) -> Result<(), AllocError>
    ensures { OnOk result (text.new.items ≡ text.old.items ++ kept_mark found.now) }
{
    let registers = kept_in(alloc, found)?;
    push_kept(text, &registers)
}
