//! The twelve cases, each from its file's bytes to its lines.

ghost use Rattle.entry_tables.specs.Settling.{AreLined};

use crate::cases::{CASES, Case, Named, Walk};
use abi_lines::write_lines;
use abi_premises::assumptions;
use abi_routines::{Finding, Routine, routines};
use abi_verdicts::{End, Verdict, ending, ends};
use elf_image::{Image, Symbol, read_image};
use elf_write::{FileHeader, SegmentHeader, push_file_header, push_program_header, push_words};
use entry_search::{LIMITS, tabulate};
use entry_tables::Rows;
use sqlite_items::Items;
use std::alloc::{AllocError, Global};

const SAVED: [u8; 14] = [2, 1, 8, 9, 18, 19, 20, 21, 22, 23, 24, 25, 26, 27];

/// A file with this code from 0x10000 on.
fn file_of(alloc: Global, code: &[u32]) -> Result<Vec<u8>, AllocError> {
    let mut file = Vec::new(alloc);
    let size = 4 * code.len() as u64;
    push_file_header(
        &mut file,
        &FileHeader {
            entry: 0x10000,
            flags: 0,
            segments: 1,
            sections_at: 0,
            sections: 0,
            names_section: 0,
        },
    )?;
    push_program_header(
        &mut file,
        &SegmentHeader {
            offset: 120,
            address: 0x10000,
            stored: size,
            size,
            flags: 5,
        },
    )?;
    push_words(&mut file, code)?;
    Ok(file)
}

fn roots_of(alloc: Global, procedures: &[Named]) -> Result<Items<u64>, AllocError> {
    let mut roots = Items::new(alloc);
    for procedure in procedures {
        roots.push(procedure.address)?;
    }
    Ok(roots)
}

fn symbols_of(alloc: Global, procedures: &[Named]) -> Result<Items<Symbol>, AllocError> {
    let mut symbols = Items::new(alloc);
    for procedure in procedures {
        let name = Items::from_slice(alloc, procedure.name.as_bytes())?;
        symbols.push(Symbol {
            name,
            value: procedure.address,
        })?;
    }
    Ok(symbols)
}

fn is_clobbered(one: &Finding) -> bool {
    matches!(one.verdict, Verdict::Clobbered(_))
}

fn is_walk(walk: &Walk, one: &Finding) -> bool {
    walk.procedure == one.procedure
        && walk.register == one.register
        && one.walk.as_slice() == walk.addresses
}

/// How many of the walks are told of, where those from a number on are to be those of some findings; none, if they aren't.
fn walked(walks: &[Walk], from: usize, found: &[Finding]) -> Option<usize> {
    let mut at = from;
    for one in found {
        if is_clobbered(one) {
            if at >= walks.len() || !is_walk(&walks[at], one) {
                return None;
            }
            at += 1;
        }
    }
    Some(at)
}

fn all_walked(walks: &[Walk], routines: &[Routine]) -> bool {
    let mut at = 0;
    for routine in routines {
        match walked(walks, at, routine.findings.as_slice()) {
            Some(next) => at = next,
            None => return false,
        }
    }
    at == walks.len()
}

fn has_lines(alloc: Global, image: &Image, rows: &Rows, case: &Case, routines: &[Routine]) -> bool
    requires { AreLined image.now rows.now.points }
{
    let Ok(assumed) = assumptions(alloc, image, rows) else {
        return false;
    };
    let Ok(symbols) = symbols_of(alloc, case.procedures) else {
        return false;
    };
    match write_lines(alloc, symbols.as_slice(), routines, assumed.as_slice()) {
        Ok(text) => text.as_slice() == case.lines.as_bytes(),
        Err(_) => false,
    }
}

fn tells_by(
    alloc: Global,
    image: &Image,
    rows: &Rows,
    ends: &[End],
    ending: &[u64],
    case: &Case,
) -> bool
    requires { AreLined image.now rows.now.points }
{
    match routines(alloc, image, rows, ends, ending, &SAVED) {
        Ok(routines) => {
            all_walked(case.walks, routines.as_slice())
                && has_lines(alloc, image, rows, case, routines.as_slice())
        }
        Err(_) => false,
    }
}

fn tells(alloc: Global, image: &Image, rows: &Rows, case: &Case) -> bool
    requires { AreLined image.now rows.now.points }
{
    let Ok(ends) = ends(alloc, image, rows) else {
        return false;
    };
    match ending(alloc, ends.as_slice()) {
        Ok(ending) => tells_by(alloc, image, rows, ends.as_slice(), ending.as_slice(), case),
        Err(_) => false,
    }
}

fn holds_of(alloc: Global, image: &Image, case: &Case) -> bool {
    let Ok(roots) = roots_of(alloc, case.procedures) else {
        return false;
    };
    let (guesses, silent) = (Items::new(alloc), Items::new(alloc));
    match tabulate(alloc, image, roots.as_slice(), guesses, silent, LIMITS) {
        Ok(rows) => tells(alloc, image, &rows, case),
        Err(_) => false,
    }
}

fn holds_in(alloc: Global, file: &[u8], case: &Case) -> bool {
    match read_image(alloc, file) {
        Ok(image) => holds_of(alloc, &image, case),
        Err(_) => false,
    }
}

fn holds(alloc: Global, case: &Case) -> bool {
    match file_of(alloc, case.code) {
        Ok(file) => holds_in(alloc, &file, case),
        Err(_) => false,
    }
}

fn all_hold(alloc: Global, cases: &[Case]) -> bool {
    for case in cases.iter() {
        if !holds(alloc, case) {
            return false;
        }
    }
    true
}

#[test]
fn worked_cases(rt: HostRuntime) {
    assert!(rt; all_hold(rt.alloc(), CASES));
}
