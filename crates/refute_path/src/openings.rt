//! The openings of procedures, with which the loop begins.

ghost use Rattle.std.specs.Prelude.{◌≡◌, ◌<◌, OnOk, length, bit_and};
ghost use Rattle.row_modules.specs.Positions.{has};
ghost use Rattle.affine_prog.specs.Programs.{slots_of, IsWellFormed};
ghost use Rattle.affine_prog.specs.LevelPaths.{opening_map};
ghost use Rattle.refute_path.specs.Tags.{words_by, IsSlotBy};
ghost use Rattle.refute_path.specs.Arenas.{IsArena};
ghost use Rattle.refute_path.specs.Gains.{Gains, IsOpeningAt, IsOpeningBy, IsOpeningOf, IsOpeningBelow};

use crate::offers::offer;
use crate::{Made, Placed};
use affine_prog::Program;
use lead_basis::{Memory, Steps};
use map_modules::{Mat, MatBasis, extend_call, identity};
use sqlite_items::Items;
use std::alloc::Global;
use std::sync::ledger::Ledger;
use word_rows::Row;

/// Whether a set of positions has this one.
pub(crate) fn has(set: u16, i: usize) -> bool
    requires { i < 17 }
    ensures { result ≡ has set i }
{
    (u32::from(set) >> i) & 1 == 1
}

/// The opening of a procedure with these slots, in which this slot's word is 1, or none is.
fn opening(registers: u16, slots: u16, raised: Option<usize>) -> Mat
    requires apart { bit_and registers slots ≡ 0 }
    requires slot { IsSlotBy slots raised }
    ensures { result ≡ opening_map registers slots (words_by 16 raised) }
{
    let mut map = extend_call(&identity(16), registers, 0);
    match raised {
        None => map,
        Some(k) => {
            map.add_scaled(1, &Row::zero().with(17 * k + 16, 1));
            map
        }
    }
}

/// Offers an opening to the procedure's entry.
fn open_by<L: Ledger>(
    program: &Program,
    bases: &mut Vec<MatBasis>,
    items: &mut Items<Placed>,
    proc: u32,
    raised: Option<usize>,
    steps: &mut Steps<L>,
) -> Result<(), Memory>
    requires formed { IsWellFormed program.now }
    requires arena { IsArena program.now items.old bases.old.items }
    requires proc { proc < length program.now.procs }
    requires slot { IsSlotBy (slots_of program.now proc) raised }
    ensures { OnOk result (Gains program.now items.old items.new bases.old.items bases.new.items (IsOpeningBy program.now proc raised)) }
{
    let own = program.procs.as_slice()[proc as usize];
    let map = opening(program.registers, own.slots, raised);
    let made = Made::Opening { proc, raised };
    offer(program, bases, items, own.entry, &map, made, steps)
}

/// Offers the opening in which this slot's word is 1, where it is a slot of the procedure.
fn open_slot<L: Ledger>(
    program: &Program,
    bases: &mut Vec<MatBasis>,
    items: &mut Items<Placed>,
    proc: u32,
    k: usize,
    steps: &mut Steps<L>,
) -> Result<(), Memory>
    requires formed { IsWellFormed program.now }
    requires arena { IsArena program.now items.old bases.old.items }
    requires proc { proc < length program.now.procs }
    requires below { k < 16 }
    ensures { OnOk result (Gains program.now items.old items.new bases.old.items bases.new.items (IsOpeningAt program.now proc k)) }
{
    if !has(program.procs.as_slice()[proc as usize].slots, k) {
        return Ok(());
    }
    open_by(program, bases, items, proc, Some(k), steps)
}

/// Offers the openings of a procedure in which one slot's word is 1, or none is.
fn open_proc<L: Ledger>(
    program: &Program,
    bases: &mut Vec<MatBasis>,
    items: &mut Items<Placed>,
    proc: u32,
    steps: &mut Steps<L>,
) -> Result<(), Memory>
    requires formed { IsWellFormed program.now }
    requires arena { IsArena program.now items.old bases.old.items }
    requires proc { proc < length program.now.procs }
    ensures { OnOk result (Gains program.now items.old items.new bases.old.items bases.new.items (IsOpeningOf program.now proc 16)) }
{
    open_by(program, bases, items, proc, None, steps)?;
    for k in 0..16usize {
        open_slot(program, bases, items, proc, k, steps)?;
    }
    Ok(())
}

/// Offers the openings of all procedures.
pub(crate) fn open_all<L: Ledger>(
    program: &Program,
    bases: &mut Vec<MatBasis>,
    items: &mut Items<Placed>,
    steps: &mut Steps<L>,
) -> Result<(), Memory>
    requires formed { IsWellFormed program.now }
    requires arena { IsArena program.now items.old bases.old.items }
    ensures { OnOk result (Gains program.now items.old items.new bases.old.items bases.new.items (IsOpeningBelow program.now (length program.now.procs))) }
{
    for p in 0..program.procs.len() {
        let Ok(proc) = u32::try_from(p) else {
            return Err(Memory);
        };
        open_proc(program, bases, items, proc, steps)?;
    }
    Ok(())
}
