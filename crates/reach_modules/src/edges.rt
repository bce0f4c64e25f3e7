//! What the edges make of a row.

ghost use Rattle.std.specs.Prelude.{◌≡◌, ◌<◌, ◌++◌, All, Contains, length, map, slice_index, OnOk, IfOk, bit_and};
ghost use Rattle.word_rows.specs.Rows.{IsRow};
ghost use Rattle.row_modules.specs.Modules.{AreRows, SameModule};
ghost use Rattle.affine_prog.specs.Assignments.{position_of};
ghost use Rattle.affine_prog.specs.Programs.{slots_of, owner_of, IsWellFormed};
ghost use Rattle.affine_prog.specs.Laws.{IsOpening};
ghost use Rattle.affine_prog.specs.Spans.{IsMapOf};
ghost use Rattle.reach_modules.specs.Made.{MakesEach};
ghost use Rattle.reach_modules.specs.Moves.{IsReturn};
ghost use Rattle.row_engine.specs.Tables.{AreOut};
ghost use Rattle.reach_modules.specs.Offers.{offer, EdgeOffers, RowOffers};
ghost use Rattle.reach_modules.specs.Tables.{ArePlaces};

use crate::made::{each_opened, each_returned, positions};
use crate::{Offer, Tables};
use affine_prog::{Edge, Kind, Program};
use lead_basis::Memory;
use map_modules::{Mat, MatBasis, extend_call, identity};
use row_images::images;
use sqlite_items::Items;
use std::alloc::Global;
use word_rows::Row;

/// Offers rows to a node.
pub(crate) fn offer_all(
    offers: &mut Items<Offer>,
    node: u32,
    rows: &[Row<17>],
) -> Result<(), Memory>
    ensures { OnOk result (offers.new ≡ offers.old ++ map (λ v. offer node v) rows.now) }
{
    for row in rows {
        match offers.push(Offer { node, row: *row }) {
            Ok(()) => {}
            Err(_) => return Err(Memory),
        }
    }
    Ok(())
}

/// The registers, and the slots of a procedure.
fn sets_of(program: &Program, p: u32) -> (u16, u16)
    requires formed { IsWellFormed program.now }
    requires proc { p < length program.now.procs }
    ensures registers { result.0 ≡ program.now.registers }
    ensures slots { result.1 ≡ slots_of program.now p }
    ensures disjoint { bit_and result.0 result.1 ≡ 0 }
{
    (
        program.registers,
        program.procs.as_slice()[p as usize].slots,
    )
}

/// The maps that span what a procedure does from its entry to its exit.
fn exit_rows<'a>(program: &Program, bases: &'a [MatBasis], places: &[usize], q: u32) -> &'a [Mat]
    requires places { ArePlaces program.now bases.now places.now }
    requires proc { q < length program.now.procs }
    ensures rows { AreRows 289 (Contains result.now) }
    ensures exact { SameModule 289 (Contains result.now) (IsMapOf program.now q) }
{
    let basis = &bases[places[q as usize]];
    basis.known();
    basis.rows()
}

/// What a procedure, as a caller at this node sees it, makes of each row.
fn returned(
    alloc: Global,
    program: &Program,
    bases: &[MatBasis],
    places: &[usize],
    from: u32,
    callee: u32,
    rows: &[Row<17>],
) -> Result<Items<Row<17>>, Memory>
    requires formed { IsWellFormed program.now }
    requires places { ArePlaces program.now bases.now places.now }
    requires node { from < program.now.nodes }
    requires proc { callee < length program.now.procs }
    ensures { IfOk result (MakesEach (IsReturn program.now (slots_of program.now (owner_of program.now from)) callee) rows.now) }
{
    let exits = exit_rows(program, bases, places, callee);
    each_returned(alloc, sets_of(program, program.proc_of(from)), exits, rows)
}

/// What the openings of a procedure make of each row.
pub(crate) fn opened(
    alloc: Global,
    program: &Program,
    callee: u32,
    rows: &[Row<17>],
) -> Result<Items<Row<17>>, Memory>
    requires formed { IsWellFormed program.now }
    requires proc { callee < length program.now.procs }
    ensures { IfOk result (MakesEach (IsOpening program.now.registers (slots_of program.now callee)) rows.now) }
{
    let sets = sets_of(program, callee);
    let slots = positions(alloc, sets.1)?;
    let keep = extend_call(&identity(16), sets.0, 0);
    each_opened(alloc, slots.as_slice(), &keep, rows)
}

/// What an edge makes of a row, at its end, and where it calls, at its callee's entry.
fn edge_offers(
    alloc: Global,
    program: &Program,
    bases: &[MatBasis],
    places: &[usize],
    edge: &Edge,
    row: &Row<17>,
) -> Result<Items<Offer>, Memory>
    requires formed { IsWellFormed program.now }
    requires places { ArePlaces program.now bases.now places.now }
    requires edge { Contains program.now.edges edge.now }
    ensures { IfOk result (EdgeOffers program.now edge.now row.now) }
{
    let mut offers = Items::new(alloc);
    match &edge.kind {
        Kind::Do(assigns) => {
            let rows = images(alloc, assigns.as_slice(), row)?;
            offer_all(&mut offers, edge.to, rows.as_slice())?;
            Ok(offers)
        }
        Kind::Call { callee, before } => {
            let rows = images(alloc, before.as_slice(), row)?;
            let over = returned(
                alloc,
                program,
                bases,
                places,
                edge.from,
                *callee,
                rows.as_slice(),
            )?;
            let into = opened(alloc, program, *callee, rows.as_slice())?;
            let entry = program.procs.as_slice()[*callee as usize].entry;
            offer_all(&mut offers, edge.to, over.as_slice())?;
            offer_all(&mut offers, entry, into.as_slice())?;
            Ok(offers)
        }
    }
}

/// What the edges that leave a node make of a row.
pub(crate) fn row_offers(
    alloc: Global,
    program: &Program,
    bases: &[MatBasis],
    tables: &Tables,
    node: u32,
    row: &Row<17>,
) -> Result<Items<Offer>, Memory>
    requires formed { IsWellFormed program.now }
    requires places { ArePlaces program.now bases.now tables.now.places }
    requires out { AreOut program.now tables.now.out.items }
    requires node { node < program.now.nodes }
    ensures { IfOk result (RowOffers program.now node row.now) }
{
    let mut offers = Items::new(alloc);
    for k in tables.out[node as usize].as_slice() {
        let edge = &program.edges.as_slice()[*k as usize];
        let more = edge_offers(alloc, program, bases, tables.places.as_slice(), edge, row)?;
        match offers.append(more) {
            Ok(()) => {}
            Err(_) => return Err(Memory),
        }
    }
    Ok(offers)
}
