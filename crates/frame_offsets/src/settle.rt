//! A search with a list of the points whose offsets changed.

ghost use Rattle.std.specs.Prelude.{◌≡◌, ◌*◌, ◌<◌, length, replicate, All, OnOk};
ghost use Rattle.flow_points.specs.Walks.{point};
ghost use Rattle.frame_offsets.specs.Tables.{at_row, AreSettled, IsOpenedAt};
ghost use Rattle.frame_offsets.specs.Searches.{Grows, IsRowJustified, IsSearch, JoinsTo, Visits};
ghost use Rattle.frame_offsets.specs.declared.known.Known.TheVariants.{Unmet};

use crate::Memory;
use crate::known::Known;
use crate::rows::{row_at_entry, row_behind};
use crate::table::{Row, raise_row};
use flow_points::{Flow, Points};
use indexmap::IndexSet;
use std::alloc::Global;

/// Finds what is known of the registers at all points, from a table of which nothing is known. Each point
/// of the list is looked at, and points come to the list where something of them changed.
pub fn settle(alloc: Global, table: &mut [Known], points: &Points) -> Result<(), Memory>
    requires { table.old ≡ replicate (32 * length points.now.points) Unmet }
    ensures { OnOk result (AreSettled points.now table.new) }
{
    points.known();
    let mut changed = IndexSet::new(alloc);
    open_all(table, &mut changed, points)?;
    while let Some(i) = changed.pop() {
        visit(table, &mut changed, points, i)?;
    }
    Ok(())
}

// Joins what is known at the entry of each procedure with what is known at entries.
fn open_all(table: &mut [Known], changed: &mut IndexSet<u32>, points: &Points) -> Result<(), Memory>
    requires { IsSearch points.now.points table.old changed.old.keys }
    ensures grows { OnOk result (Grows points.now.points table.old changed.old.keys table.new changed.new.keys) }
    ensures opened { OnOk result (All (IsOpenedAt points.now.points table.new) points.now.procedures) }
{
    let row = row_at_entry();
    for entry in points.procedures() {
        join(table, changed, points, *entry, *entry, &row)?;
    }
    Ok(())
}

// Joins what is known at the points behind one with what this one leaves.
fn visit(
    table: &mut [Known],
    changed: &mut IndexSet<u32>,
    points: &Points,
    i: u32,
) -> Result<(), Memory>
    requires number { i < length points.now.points }
    requires search { IsSearch points.now.points table.old changed.old.keys }
    ensures { OnOk result (Visits points.now.points i table.old changed.old.keys table.new changed.new.keys) }
{
    points.known();
    let code = points.code(i);
    let row = row_behind(table, i as usize, &code);
    let proc_entry = code.point.proc_entry;
    match code.flow {
        Flow::Next(next) => join(table, changed, points, proc_entry, next, &row),
        Flow::Jump(target) => join(table, changed, points, proc_entry, target, &row),
        Flow::Branch { next, target } => {
            join(table, changed, points, proc_entry, next, &row)?;
            join(table, changed, points, proc_entry, target, &row)
        }
        // The callee's walks are its own.
        Flow::Call { next, .. } => join(table, changed, points, proc_entry, next, &row),
        Flow::Return | Flow::Halt => Ok(()),
    }
}

// Joins what is known at a point with a row, and lists the point if that changed something.
fn join(
    table: &mut [Known],
    changed: &mut IndexSet<u32>,
    points: &Points,
    proc_entry: u64,
    address: u64,
    row: &Row,
) -> Result<(), Memory>
    requires search { IsSearch points.now.points table.old changed.old.keys }
    requires row { IsRowJustified points.now.points (point proc_entry address) (at_row row.now) }
    ensures { OnOk result (JoinsTo points.now.points (point proc_entry address) (at_row row.now) table.old changed.old.keys table.new changed.new.keys) }
{
    points.known();
    let Some(i) = points.find(proc_entry, address) else {
        return Ok(());
    };
    if !raise_row(table, i as usize, row) {
        return Ok(());
    }
    match changed.insert(i) {
        Ok(_) => Ok(()),
        Err(_) => Err(Memory),
    }
}
