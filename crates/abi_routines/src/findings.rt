//! What is told of a whole table.

ghost use Rattle.std.specs.Prelude.{◌≡◌, ◌++◌, ◌∷◌, [], map, IfOk, OnOk};
ghost use Rattle.entry_tables.specs.Settling.{AreLined, table_of};
ghost use Rattle.abi_verdicts.specs.Depths.{levels_of};
ghost use Rattle.abi_routines.specs.Findings.{IsFinding, AreFindings, place_of, asked, IsRoutine, AreRoutines};

use crate::finding::{Finding, Routine};
use crate::search::look_for;
use abi_verdicts::{End, Level, Verdict, Way, depth_of, is_own, levels, verdict_of};
use elf_image::Image;
use entry_tables::Rows;
use entry_values::Memory;
use entry_walks::value_in;
use sqlite_items::Items;
use std::alloc::Global;

/// What is told of each procedure of a table, and of these registers of it, by the table's ends and the procedures that
/// have one.
pub fn routines(
    alloc: Global,
    image: &Image,
    rows: &Rows,
    ends: &[End],
    ending: &[u64],
    registers: &[u8],
) -> Result<Items<Routine>, Memory>
    requires { AreLined image.now rows.now.points }
    ensures told { IfOk result (AreRoutines image.now rows.now ends.now ending.now registers.now) }
    ensures each { IfOk result (λ all. map (λ r. r.procedure) all ≡ map (λ k. k.procedure) rows.now.procedures) }
{
    match levels(alloc, rows.points.as_slice()) {
        Ok(levels) => each(
            alloc,
            image,
            rows,
            levels.as_slice(),
            ends,
            ending,
            registers,
        ),
        Err(memory) => Err(memory),
    }
}

fn each(
    alloc: Global,
    image: &Image,
    rows: &Rows,
    levels: &[Level],
    ends: &[End],
    ending: &[u64],
    registers: &[u8],
) -> Result<Items<Routine>, Memory>
    requires lined { AreLined image.now rows.now.points }
    requires levels { levels.now ≡ levels_of rows.now.points }
    ensures told { IfOk result (AreRoutines image.now rows.now ends.now ending.now registers.now) }
    ensures each { IfOk result (λ all. map (λ r. r.procedure) all ≡ map (λ k. k.procedure) rows.now.procedures) }
{
    let mut all = Items::new(alloc);
    for told in rows.procedures.as_slice() {
        let one = routine(
            alloc,
            image,
            rows,
            levels,
            ends,
            ending,
            told.procedure,
            registers,
        )?;
        push_routine(&mut all, one)?;
    }
    Ok(all)
}

fn push_routine(all: &mut Items<Routine>, one: Routine) -> Result<(), Memory>
    ensures { OnOk result (all.new ≡ all.old ++ one ∷ []) }
{
    match all.push(one) {
        Ok(()) => Ok(()),
        Err(_) => Err(Memory),
    }
}

fn routine(
    alloc: Global,
    image: &Image,
    rows: &Rows,
    levels: &[Level],
    ends: &[End],
    ending: &[u64],
    p: u64,
    registers: &[u8],
) -> Result<Routine, Memory>
    requires lined { AreLined image.now rows.now.points }
    requires levels { levels.now ≡ levels_of rows.now.points }
    ensures told { IfOk result (IsRoutine image.now rows.now ends.now ending.now registers.now) }
    ensures procedure { IfOk result (λ one. one.procedure ≡ p) }
{
    let findings = own_findings(alloc, image, rows, ends, ending, p, registers)?;
    Ok(Routine {
        procedure: p,
        depth: depth_of(p, levels),
        findings,
    })
}

// What is told of a procedure.
fn own_findings(
    alloc: Global,
    image: &Image,
    rows: &Rows,
    ends: &[End],
    ending: &[u64],
    p: u64,
    registers: &[u8],
) -> Result<Items<Finding>, Memory>
    requires { AreLined image.now rows.now.points }
    ensures told { IfOk result (AreFindings (table_of image.now rows.now) ends.now ending.now) }
    ensures asked { IfOk result (λ found. map place_of found ≡ asked p registers.now) }
{
    let mut found = Items::new(alloc);
    for r in registers {
        let one = finding(alloc, image, rows, ends, ending, p, *r)?;
        push(&mut found, one)?;
    }
    Ok(found)
}

fn push(found: &mut Items<Finding>, one: Finding) -> Result<(), Memory>
    ensures { OnOk result (found.new ≡ found.old ++ one ∷ []) }
{
    match found.push(one) {
        Ok(()) => Ok(()),
        Err(_) => Err(Memory),
    }
}

// What is told of a register. A walk is looked for only where one may show a fault that the table leaves open.
fn finding(
    alloc: Global,
    image: &Image,
    rows: &Rows,
    ends: &[End],
    ending: &[u64],
    p: u64,
    r: u8,
) -> Result<Finding, Memory>
    requires { AreLined image.now rows.now.points }
    ensures told { IfOk result (IsFinding (table_of image.now rows.now) ends.now ending.now) }
    ensures asked { IfOk result (λ one. place_of one ≡ (p, r)) }
{
    let walk = match verdict_of(alloc, image, rows, ends, ending, p, r, &[])? {
        Verdict::Unknown(_) if may_show(p, r, ends) => look_for(alloc, image, rows, p, r)?,
        _ => Items::new(alloc),
    };
    let verdict = verdict_of(alloc, image, rows, ends, ending, p, r, walk.as_slice())?;
    Ok(Finding {
        procedure: p,
        register: r,
        verdict,
        walk,
    })
}

// Whether an end of the procedure leaves room for a fault of the register.
fn may_show(p: u64, r: u8, ends: &[End]) -> bool {
    for end in ends {
        if end.procedure == p && is_open(r, end) {
            return true;
        }
    }
    false
}

fn is_open(r: u8, end: &End) -> bool {
    match end.way {
        Way::Home | Way::Out => r != 1 && !is_own(r, value_in(&end.values, r)),
        Way::Away | Way::Jump => true,
        Way::NoWord | Way::Limit | Way::Into(_) => false,
    }
}
