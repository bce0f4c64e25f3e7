//! The lines.

ghost use Rattle.std.specs.Prelude.{◌≡◌, ◌++◌, IfOk, OnOk};
ghost use Rattle.abi_lines.specs.Lines.{verdict_text, finding_line, finding_lines, known_mark, name_text, routine_lines, all_lines, counted, assumes_line, memory_lines, jump_lines, stack_lines, assumes_lines, end_line, lines_text};

use crate::tallies::{more, tally_of};
use crate::tally::Tally;
use crate::words::{number_of, premise_text, push_register, push_value, push_why};
use abi_premises::{Assumption, Premise};
use abi_routines::{Finding, Routine};
use abi_verdicts::Verdict;
use elf_image::Symbol;
use number_text::{push_dec, push_hex};
use std::alloc::{AllocError, Global};

/// The lines of what is told of routines, with the names that these symbols give, and of what is assumed.
pub fn write_lines(
    alloc: Global,
    symbols: &[Symbol],
    routines: &[Routine],
    assumed: &[Assumption],
) -> Result<Vec<u8>, AllocError>
    ensures { IfOk result (λ text. text.items ≡ lines_text symbols.now routines.now assumed.now) }
{
    let mut text = Vec::from_slice(alloc, b"affine-check 1\n")?;
    push_routines(&mut text, symbols, routines)?;
    push_assumes(&mut text, assumed)?;
    push_end(&mut text, tally_of(routines))?;
    Ok(text)
}

fn push_routines(
    text: &mut Vec<u8>,
    symbols: &[Symbol],
    routines: &[Routine],
) -> Result<(), AllocError>
    ensures { OnOk result (text.new.items ≡ text.old.items ++ all_lines symbols.now routines.now) }
{
    for routine in routines {
        push_routine(text, symbols, routine)?;
    }
    Ok(())
}

fn push_routine(text: &mut Vec<u8>, symbols: &[Symbol], routine: &Routine) -> Result<(), AllocError>
    ensures { OnOk result (text.new.items ≡ text.old.items ++ routine_lines symbols.now routine.now) }
{
    text.extend_from_slice(b"proc ")?;
    push_hex(text, routine.procedure)?;
    text.extend_from_slice(b" ")?;
    push_dec(text, routine.depth.bytes)?;
    push_known_mark(text, routine.depth.known)?;
    push_name(text, symbols, routine.procedure)?;
    text.extend_from_slice(b"\n")?;
    push_findings(text, routine.findings.as_slice())
}

/// Appends `?` where sp isn't known everywhere.
pub fn push_known_mark(text: &mut Vec<u8>, known: bool) -> Result<(), AllocError>
    ensures { OnOk result (text.new.items ≡ text.old.items ++ known_mark known) }
{
    if known {
        Ok(())
    } else {
        text.extend_from_slice(b"?")
    }
}

fn push_name(text: &mut Vec<u8>, symbols: &[Symbol], p: u64) -> Result<(), AllocError>
    ensures { OnOk result (text.new.items ≡ text.old.items ++ name_text symbols.now p) }
{
    for symbol in symbols {
        if symbol.value == p {
            text.extend_from_slice(b" ")?;
            return text.extend_from_slice(symbol.name.as_slice());
        }
    }
    Ok(())
}

fn push_findings(text: &mut Vec<u8>, found: &[Finding]) -> Result<(), AllocError>
    ensures { OnOk result (text.new.items ≡ text.old.items ++ finding_lines found.now) }
{
    for one in found {
        push_finding(text, one)?;
    }
    Ok(())
}

fn push_finding(text: &mut Vec<u8>, one: &Finding) -> Result<(), AllocError>
    ensures { OnOk result (text.new.items ≡ text.old.items ++ finding_line one.now) }
{
    push_register(text, one.register)?;
    text.extend_from_slice(b" ")?;
    push_verdict(text, one.verdict)?;
    text.extend_from_slice(b"\n")
}

fn push_verdict(text: &mut Vec<u8>, verdict: Verdict) -> Result<(), AllocError>
    ensures { OnOk result (text.new.items ≡ text.old.items ++ verdict_text verdict) }
{
    match verdict {
        Verdict::Kept => text.extend_from_slice(b"kept"),
        Verdict::Never => text.extend_from_slice(b"never"),
        Verdict::Clobbered(fault) => {
            text.extend_from_slice(b"clobbered ")?;
            push_hex(text, fault.changed)?;
            text.extend_from_slice(b" return ")?;
            push_hex(text, fault.address)?;
            push_value(text, fault.changed, fault.value)
        }
        Verdict::Unknown(cause) => {
            text.extend_from_slice(b"unknown ")?;
            push_hex(text, cause.address)?;
            text.extend_from_slice(b" ")?;
            push_why(text, cause.why)
        }
    }
}

/// How many assumptions are of the premise of this number, as far as a word counts.
pub fn counted(n: u64, assumed: &[Assumption]) -> u64
    ensures { result ≡ counted n 0 assumed.now }
{
    let mut count = 0;
    for one in assumed {
        count = if number_of(one.premise) == n {
            more(count)
        } else {
            count
        };
    }
    count
}

fn push_assumed(
    text: &mut Vec<u8>,
    premise: Premise,
    assumed: &[Assumption],
) -> Result<(), AllocError>
    ensures { OnOk result (text.new.items ≡ text.old.items ++ assumes_line premise assumed.now) }
{
    let count = counted(number_of(premise), assumed);
    if count == 0 {
        return Ok(());
    }
    text.extend_from_slice(b"assumes ")?;
    text.extend_from_slice(premise_text(premise).as_bytes())?;
    text.extend_from_slice(b" ")?;
    push_dec(text, count)?;
    text.extend_from_slice(b"\n")
}

fn push_assumes(text: &mut Vec<u8>, assumed: &[Assumption]) -> Result<(), AllocError>
    ensures { OnOk result (text.new.items ≡ text.old.items ++ assumes_lines assumed.now) }
{
    push_memory(text, assumed)?;
    push_jumps(text, assumed)?;
    push_stack(text, assumed)
}

fn push_memory(text: &mut Vec<u8>, assumed: &[Assumption]) -> Result<(), AllocError>
    ensures { OnOk result (text.new.items ≡ text.old.items ++ memory_lines assumed.now) }
{
    push_assumed(text, Premise::Stores, assumed)?;
    push_assumed(text, Premise::Globals, assumed)?;
    push_assumed(text, Premise::Ecalls, assumed)?;
    push_assumed(text, Premise::Opaques, assumed)
}

fn push_jumps(text: &mut Vec<u8>, assumed: &[Assumption]) -> Result<(), AllocError>
    ensures { OnOk result (text.new.items ≡ text.old.items ++ jump_lines assumed.now) }
{
    push_assumed(text, Premise::Foreigns, assumed)?;
    push_assumed(text, Premise::Tails, assumed)?;
    push_assumed(text, Premise::Tables, assumed)?;
    push_assumed(text, Premise::NoReturn, assumed)
}

fn push_stack(text: &mut Vec<u8>, assumed: &[Assumption]) -> Result<(), AllocError>
    ensures { OnOk result (text.new.items ≡ text.old.items ++ stack_lines assumed.now) }
{
    push_assumed(text, Premise::Stack, assumed)?;
    push_assumed(text, Premise::Above, assumed)?;
    push_assumed(text, Premise::Partial, assumed)?;
    push_assumed(text, Premise::Exits, assumed)
}

fn push_end(text: &mut Vec<u8>, tally: Tally) -> Result<(), AllocError>
    ensures { OnOk result (text.new.items ≡ text.old.items ++ end_line tally) }
{
    text.extend_from_slice(b"end ")?;
    push_dec(text, tally.kept)?;
    text.extend_from_slice(b" ")?;
    push_dec(text, tally.clobbered)?;
    text.extend_from_slice(b" ")?;
    push_dec(text, tally.unknown)?;
    text.extend_from_slice(b" ")?;
    push_dec(text, tally.never)?;
    text.extend_from_slice(b"\n")
}
