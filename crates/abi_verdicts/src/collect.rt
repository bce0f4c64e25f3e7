//! The ends of a table.

ghost use Rattle.std.specs.Prelude.{◌≡◌, ◌<◌, ◌++◌, get_or, length, option_to_list, Some, slice_get, IfOk, OnOk};
ghost use Rattle.entry_tables.specs.Settling.{AreLined, IsLined, summary_of};
ghost use Rattle.abi_verdicts.specs.Ends.{stuck_way, call_way, way_of, end_at, end_of, ends_in};

use crate::ways::{End, Way};
use elf_image::Image;
use entry_tables::{Line, Point, Rows, Told, flow_at, is_silent};
use entry_values::{Flow, Memory};
use entry_walks::told_at;
use sqlite_items::Items;
use std::alloc::Global;

/// The ends at the points of a table, in their order.
pub fn ends(alloc: Global, image: &Image, rows: &Rows) -> Result<Items<End>, Memory>
    requires { AreLined image.now rows.now.points }
    ensures { IfOk result (λ all. all ≡ ends_in image.now rows.now rows.now.points) }
{
    let mut all = Items::new(alloc);
    let mut i = 0;
    while i < rows.points.len() {
        let end = end_by_number(alloc, image, rows, i)?;
        push_if(&mut all, end)?;
        i += 1;
    }
    Ok(all)
}

fn push_if(all: &mut Items<End>, end: Option<End>) -> Result<(), Memory>
    ensures { OnOk result (all.new ≡ all.old ++ option_to_list end) }
{
    let Some(end) = end else {
        return Ok(());
    };
    match all.push(end) {
        Ok(()) => Ok(()),
        Err(_) => Err(Memory),
    }
}

fn end_by_number(alloc: Global, image: &Image, rows: &Rows, i: usize) -> Result<Option<End>, Memory>
    requires within { i < length rows.now.points }
    requires lined { AreLined image.now rows.now.points }
    ensures { IfOk result (λ end. (point : _) → slice_get rows.now.points i ≡ Some point → end ≡ end_of image.now rows.now point) }
{
    end_of(alloc, image, rows, &rows.points.as_slice()[i])
}

fn end_of(alloc: Global, image: &Image, rows: &Rows, point: &Point) -> Result<Option<End>, Memory>
    requires { IsLined image.now point.now }
    ensures { IfOk result (λ end. end ≡ end_of image.now rows.now point.now) }
{
    let flow = flow_at(
        alloc,
        image,
        rows.guesses.as_slice(),
        point.address,
        point.line,
        point.marked,
        &point.state,
    )?;
    match way_of(rows, point, &flow) {
        Some(way) => Ok(Some(end_at(point, way))),
        None => Ok(None),
    }
}

fn end_at(point: &Point, way: Way) -> End
    ensures { result ≡ end_at point.now way }
{
    End {
        procedure: point.procedure,
        address: point.address,
        way,
        values: point.state.values,
    }
}

fn way_of(rows: &Rows, point: &Point, flow: &Flow) -> Option<Way>
    ensures { result ≡ way_of rows.now point.now flow.now }
{
    match flow {
        Flow::Return => Some(Way::Home),
        Flow::TailOut => Some(Way::Out),
        Flow::Leave => Some(Way::Away),
        Flow::Stuck => Some(stuck_way(point.marked, point.line)),
        Flow::CallTo(q, _) => {
            let silent = is_silent(rows.silent.as_slice(), point.address);
            call_way(silent, told_at(rows.procedures.as_slice(), *q), *q)
        }
        _ => None,
    }
}

fn stuck_way(marked: bool, line: Option<Line>) -> Way
    ensures { result ≡ stuck_way marked line }
{
    if marked {
        Way::Limit
    } else if line.is_some() {
        Way::Jump
    } else {
        Way::NoWord
    }
}

fn call_way(silent: bool, told: Option<Told>, q: u64) -> Option<Way>
    ensures { result ≡ call_way silent (summary_of told) q }
{
    match told {
        Some(told) if told.returns => None,
        _ if silent => None,
        _ => Some(Way::Into(q)),
    }
}
