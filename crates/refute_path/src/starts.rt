//! Entries of procedures that are offered, and the starts.

ghost use Rattle.std.specs.Prelude.{◌≡◌, ◌<◌, OnOk, Some, length};
ghost use Rattle.affine_prog.specs.Programs.{IsWellFormed};
ghost use Rattle.refute_path.specs.Tags.{AreMade, IsBelow, IsSlotBy};
ghost use Rattle.refute_path.specs.Entries.{IsCameBy, start_by};
ghost use Rattle.refute_path.specs.EntryArenas.{IsEntryArena, Admits, IsJust, IsStartAt, IsStartBelow};

use crate::openings::has;
use crate::{Came, Entry, Placed};
use affine_prog::Program;
use lead_basis::{Basis, Memory, Steps};
use sqlite_items::Items;
use std::alloc::Global;
use std::sync::ledger::Ledger;
use word_rows::Row;

/// Offers a state with its tag to a procedure. It becomes an entry exactly where the module grew.
pub(crate) fn offer_entry<L: Ledger>(
    program: &Program,
    items: &[Placed],
    bases: &mut Vec<Basis<17>>,
    entries: &mut Items<Entry>,
    proc: u32,
    state: &Row<17>,
    came: Came,
    steps: &mut Steps<L>,
) -> Result<(), Memory>
    requires formed { IsWellFormed program.now }
    requires made { AreMade program.now items.now }
    requires arena { IsEntryArena program.now items.now entries.old bases.old.items }
    requires proc { proc < length program.now.procs }
    requires came { IsCameBy program.now items.now entries.old (length entries.old) came proc state.now }
    ensures { OnOk result (Admits program.now items.now entries.old entries.new bases.old.items bases.new.items (IsJust proc state.now)) }
{
    state.known();
    let basis = &mut bases[proc as usize];
    basis.known();
    if !basis.insert(*state, steps)? {
        return Ok(());
    }
    match entries.push(Entry {
        proc,
        state: *state,
        came,
    }) {
        Ok(()) => Ok(()),
        Err(_) => Err(Memory),
    }
}

/// The start in which this register is 1, or none.
fn start_state(raised: Option<usize>) -> Row<17>
    requires { IsBelow 16 raised }
    ensures { result ≡ start_by raised }
{
    let mut state = Row::zero().with(16, 1);
    match raised {
        None => state,
        Some(k) => {
            state.add_scaled(1, &Row::zero().with(k, 1));
            state
        }
    }
}

/// Offers a start to the procedure that runs first.
fn start_with<L: Ledger>(
    program: &Program,
    items: &[Placed],
    bases: &mut Vec<Basis<17>>,
    entries: &mut Items<Entry>,
    raised: Option<usize>,
    steps: &mut Steps<L>,
) -> Result<(), Memory>
    requires formed { IsWellFormed program.now }
    requires made { AreMade program.now items.now }
    requires arena { IsEntryArena program.now items.now entries.old bases.old.items }
    requires register { IsSlotBy program.now.registers raised }
    ensures { OnOk result (Admits program.now items.now entries.old entries.new bases.old.items bases.new.items (IsStartAt program.now raised)) }
{
    let state = start_state(raised);
    let came = Came::Start { raised };
    offer_entry(
        program,
        items,
        bases,
        entries,
        program.start,
        &state,
        came,
        steps,
    )
}

/// Offers the start in which this position is 1, where it is a register's.
fn start_register<L: Ledger>(
    program: &Program,
    items: &[Placed],
    bases: &mut Vec<Basis<17>>,
    entries: &mut Items<Entry>,
    k: usize,
    steps: &mut Steps<L>,
) -> Result<(), Memory>
    requires formed { IsWellFormed program.now }
    requires made { AreMade program.now items.now }
    requires arena { IsEntryArena program.now items.now entries.old bases.old.items }
    requires below { k < 16 }
    ensures { OnOk result (Admits program.now items.now entries.old entries.new bases.old.items bases.new.items (IsStartAt program.now (Some k))) }
{
    if !has(program.registers, k) {
        return Ok(());
    }
    start_with(program, items, bases, entries, Some(k), steps)
}

/// Offers the starts in which one register is 1, or none is.
pub(crate) fn start_all<L: Ledger>(
    program: &Program,
    items: &[Placed],
    bases: &mut Vec<Basis<17>>,
    entries: &mut Items<Entry>,
    steps: &mut Steps<L>,
) -> Result<(), Memory>
    requires formed { IsWellFormed program.now }
    requires made { AreMade program.now items.now }
    requires arena { IsEntryArena program.now items.now entries.old bases.old.items }
    ensures { OnOk result (Admits program.now items.now entries.old entries.new bases.old.items bases.new.items (IsStartBelow program.now 16)) }
{
    start_with(program, items, bases, entries, None, steps)?;
    for k in 0..16usize {
        start_register(program, items, bases, entries, k, steps)?;
    }
    Ok(())
}
