//! Entries that calls make, from an entry and a placed map of its procedure.

ghost use Rattle.std.specs.Prelude.{◌≡◌, ◌<◌, OnOk, IfOk, length};
ghost use Rattle.map_modules.specs.Matrices.{apply};
ghost use Rattle.affine_prog.specs.Programs.{IsWellFormed};
ghost use Rattle.affine_prog.specs.Assignments.{unknown_count, matrix_of};
ghost use Rattle.refute_path.specs.Tags.{words_by, AreMade};
ghost use Rattle.refute_path.specs.Entries.{AreCame, IsClosedOver};
ghost use Rattle.refute_path.specs.EntryArenas.{IsEntryArena, Admits, IsJust, EntersAlong, IsChosen, IsEntering, IsEnteringAt, IsEnteringFrom};

use crate::closing::empty_bases;
use crate::images::step_under;
use crate::pushes::unknown_count;
use crate::starts::{offer_entry, start_all};
use crate::{Came, Entry, Placed};
use affine_prog::{Assign, Kind, Program};
use lead_basis::{Basis, Memory, Steps};
use map_modules::{apply, identity};
use sqlite_items::Items;
use std::alloc::Global;
use std::sync::ledger::Ledger;
use word_rows::Row;

/// Offers what a call makes of an entry and an item, under the choice that raises this word before it.
fn enter_by<L: Ledger>(
    program: &Program,
    items: &[Placed],
    bases: &mut Vec<Basis<17>>,
    entries: &mut Items<Entry>,
    outer: usize,
    level: usize,
    edge: usize,
    proc: u32,
    inner: &Row<17>,
    before: &[Assign],
    raised: Option<usize>,
    steps: &mut Steps<L>,
) -> Result<(), Memory>
    requires formed { IsWellFormed program.now }
    requires made { AreMade program.now items.now }
    requires arena { IsEntryArena program.now items.now entries.old bases.old.items }
    requires along { EntersAlong program.now items.now entries.old outer level edge proc inner.now before.now }
    ensures { OnOk result (Admits program.now items.now entries.old entries.new bases.old.items bases.new.items (IsJust proc (apply (matrix_of before.now (words_by (unknown_count before.now) raised)) inner.now))) }
{
    let map = step_under(before, raised, identity(16));
    let state = apply(&map, inner);
    let came = Came::Enter {
        outer,
        level,
        edge,
        raised,
    };
    offer_entry(program, items, bases, entries, proc, &state, came, steps)
}

/// Offers what a call makes of an entry and an item, under all choices that raise one word at most.
fn enter_choices<L: Ledger>(
    program: &Program,
    items: &[Placed],
    bases: &mut Vec<Basis<17>>,
    entries: &mut Items<Entry>,
    outer: usize,
    level: usize,
    edge: usize,
    proc: u32,
    inner: &Row<17>,
    before: &[Assign],
    steps: &mut Steps<L>,
) -> Result<(), Memory>
    requires formed { IsWellFormed program.now }
    requires made { AreMade program.now items.now }
    requires arena { IsEntryArena program.now items.now entries.old bases.old.items }
    requires along { EntersAlong program.now items.now entries.old outer level edge proc inner.now before.now }
    ensures { OnOk result (Admits program.now items.now entries.old entries.new bases.old.items bases.new.items (IsChosen proc before.now inner.now (unknown_count before.now))) }
{
    enter_by(
        program, items, bases, entries, outer, level, edge, proc, inner, before, None, steps,
    )?;
    for k in 0..unknown_count(before) {
        enter_by(
            program,
            items,
            bases,
            entries,
            outer,
            level,
            edge,
            proc,
            inner,
            before,
            Some(k),
            steps,
        )?;
    }
    Ok(())
}

/// Offers what an edge makes of an entry and an item, where it is a call from the item's node.
fn enter_along<L: Ledger>(
    program: &Program,
    items: &[Placed],
    bases: &mut Vec<Basis<17>>,
    entries: &mut Items<Entry>,
    outer: usize,
    level: usize,
    e: usize,
    steps: &mut Steps<L>,
) -> Result<(), Memory>
    requires formed { IsWellFormed program.now }
    requires made { AreMade program.now items.now }
    requires arena { IsEntryArena program.now items.now entries.old bases.old.items }
    requires outer { outer < length entries.old }
    requires level { level < length items.now }
    requires edge { e < length program.now.edges }
    ensures { OnOk result (Admits program.now items.now entries.old entries.new bases.old.items bases.new.items (IsEntering program.now items.now entries.old outer level e)) }
{
    let edge = &program.edges.as_slice()[e];
    if edge.from != items[level].node {
        return Ok(());
    }
    match &edge.kind {
        Kind::Do(_) => Ok(()),
        Kind::Call { callee, before } => {
            if program.proc_of(edge.from) != entries.as_slice()[outer].proc {
                return Ok(());
            }
            let inner = apply(&items[level].map, &entries.as_slice()[outer].state);
            enter_choices(
                program,
                items,
                bases,
                entries,
                outer,
                level,
                e,
                *callee,
                &inner,
                before.as_slice(),
                steps,
            )
        }
    }
}

/// Offers what calls make of an entry and an item.
fn enter_level<L: Ledger>(
    program: &Program,
    items: &[Placed],
    bases: &mut Vec<Basis<17>>,
    entries: &mut Items<Entry>,
    outer: usize,
    level: usize,
    steps: &mut Steps<L>,
) -> Result<(), Memory>
    requires formed { IsWellFormed program.now }
    requires made { AreMade program.now items.now }
    requires arena { IsEntryArena program.now items.now entries.old bases.old.items }
    requires outer { outer < length entries.old }
    requires level { level < length items.now }
    ensures { OnOk result (Admits program.now items.now entries.old entries.new bases.old.items bases.new.items (IsEnteringAt program.now items.now entries.old outer level (length program.now.edges))) }
{
    for e in 0..program.edges.len() {
        enter_along(program, items, bases, entries, outer, level, e, steps)?;
    }
    Ok(())
}

/// Offers what calls make of an entry and all items.
fn enter_entry<L: Ledger>(
    program: &Program,
    items: &[Placed],
    bases: &mut Vec<Basis<17>>,
    entries: &mut Items<Entry>,
    outer: usize,
    steps: &mut Steps<L>,
) -> Result<(), Memory>
    requires formed { IsWellFormed program.now }
    requires made { AreMade program.now items.now }
    requires arena { IsEntryArena program.now items.now entries.old bases.old.items }
    requires outer { outer < length entries.old }
    ensures { OnOk result (Admits program.now items.now entries.old entries.new bases.old.items bases.new.items (IsEnteringFrom program.now items.now entries.old outer (length items.now))) }
{
    for level in 0..items.len() {
        enter_level(program, items, bases, entries, outer, level, steps)?;
    }
    Ok(())
}

/// States with which open paths enter procedures, which with the placed maps span the states of all open paths.
pub fn enter_all<L: Ledger>(
    alloc: Global,
    program: &Program,
    items: &[Placed],
    steps: &mut Steps<L>,
) -> Result<Items<Entry>, Memory>
    requires formed { IsWellFormed program.now }
    requires made { AreMade program.now items.now }
    ensures came { IfOk result (λ entries. AreCame program.now items.now entries) }
    ensures closed { IfOk result (λ entries. IsClosedOver program.now items.now entries) }
{
    let mut bases = empty_bases::<17>(alloc, program.procs.len())?;
    let mut entries = Items::new(alloc);
    start_all(program, items, &mut bases, &mut entries, steps)?;
    let mut place = 0usize;
    while place < entries.len() {
        enter_entry(program, items, &mut bases, &mut entries, place, steps)?;
        place += 1;
    }
    Ok(entries)
}
