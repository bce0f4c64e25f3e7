//! The check.

ghost use Rattle.std.specs.Prelude.{◌≡◌, ℕ, ◌<◌, true, Some, slice_get, length, IsTrue, IfOk, IfSome};
ghost use Rattle.elf_image.specs.Images.{code_at};
ghost use Rattle.entry_values.specs.States.{start};
ghost use Rattle.entry_values.specs.declared.flow.Flow.TheVariants.{CallTo};
ghost use Rattle.entry_tables.specs.Tables.{IsSettled, Reads, EachOf, returned, foreign, KeepsRegisters, KeepsConvention};
ghost use Rattle.entry_tables.specs.Settling.{HasPoint, IsClosedIn, IsLined, AreLined, IsClosedPoint, IsChecked, table_of, told};

use crate::behind::returned;
use crate::checks::{CONVENTION, all_fit, keeps_convention, keeps_registers};
use crate::flows::flow_at;
use crate::lookups::{has_point, is_silent, told_of};
use crate::order::all_ascend;
use crate::rows::{Point, Rows, Told};
use elf_image::Image;
use entry_values::{Flow, Memory, State, start, wide};
use std::alloc::Global;

/// The table is settled, and its lines are those of the image, if this is true, where its points were made by
/// `lined_point`. One pass over the rows.
pub fn is_settled(alloc: Global, image: &Image, rows: &Rows) -> Result<bool, Memory>
    requires { AreLined image.now rows.now.points }
    ensures settled { IfOk result (λ r. IsTrue r → IsSettled (table_of image.now rows.now)) }
    ensures reads { IfOk result (λ r. IsTrue r → Reads (code_at image.now) (table_of image.now rows.now)) }
{
    let checked = is_checked(alloc, image, rows)?;
    Ok(checked)
}

fn is_checked(alloc: Global, image: &Image, rows: &Rows) -> Result<bool, Memory>
    requires { AreLined image.now rows.now.points }
    ensures { IfOk result (λ r. IsTrue r → IsChecked image.now rows.now) }
{
    if !all_ascend(rows) || !have_entries(alloc, rows) {
        return Ok(false);
    }
    let closed = are_closed(alloc, image, rows)?;
    Ok(closed)
}

fn have_entries(alloc: Global, rows: &Rows) -> bool
    ensures { IsTrue result → (i : ℕ) (k : _) → slice_get rows.now.procedures i ≡ Some k → HasPoint rows.now.points k.procedure k.procedure start }
{
    let first = start(alloc);
    let mut i = 0;
    while i < rows.procedures.len() {
        let p = rows.procedures.as_slice()[i].procedure;
        if !has_point(rows.points.as_slice(), p, p, &first) {
            return false;
        }
        i += 1;
    }
    true
}

fn are_closed(alloc: Global, image: &Image, rows: &Rows) -> Result<bool, Memory>
    requires { AreLined image.now rows.now.points }
    ensures { IfOk result (λ r. IsTrue r → (i : ℕ) (point : _) → slice_get rows.now.points i ≡ Some point → IsClosedPoint image.now rows.now point) }
{
    let mut i = 0;
    while i < rows.points.len() {
        let closed = is_closed_at(alloc, image, rows, i)?;
        if !closed {
            return Ok(false);
        }
        i += 1;
    }
    Ok(true)
}

fn is_closed_at(alloc: Global, image: &Image, rows: &Rows, i: usize) -> Result<bool, Memory>
    requires within { i < length rows.now.points }
    requires lined { AreLined image.now rows.now.points }
    ensures { IfOk result (λ r. IsTrue r → (point : _) → slice_get rows.now.points i ≡ Some point → IsClosedPoint image.now rows.now point) }
{
    is_closed_point(alloc, image, rows, &rows.points.as_slice()[i])
}

fn is_closed_point(alloc: Global, image: &Image, rows: &Rows, point: &Point) -> Result<bool, Memory>
    requires { IsLined image.now point.now }
    ensures { IfOk result (λ r. IsTrue r → IsClosedPoint image.now rows.now point.now) }
{
    let s = &point.state;
    wide(s);
    all_fit(&s.values);
    let Some(own) = told_of(rows.procedures.as_slice(), point.procedure) else {
        return Ok(false);
    };
    let guesses = rows.guesses.as_slice();
    let flow = flow_at(
        alloc,
        image,
        guesses,
        point.address,
        point.line,
        point.marked,
        s,
    )?;
    is_closed_in(alloc, rows, &own, point.procedure, point.address, s, &flow)
}

fn each_has_point(rows: &Rows, p: u64, targets: &[u64], u: &State) -> bool
    ensures { IsTrue result → EachOf targets.now (λ b. HasPoint rows.now.points p b u.now) }
{
    for b in targets {
        if !has_point(rows.points.as_slice(), p, *b, u) {
            return false;
        }
    }
    true
}

fn restores(own: &Told, s: &State) -> bool
    ensures { IsTrue result → KeepsRegisters (told own.now) s.now }
{
    wide(s);
    own.returns && keeps_registers(&own.keeps, &s.values)
}

fn keeps_to_convention(own: &Told) -> bool
    ensures { IsTrue result → KeepsConvention (told own.now) }
{
    own.returns && keeps_convention(&own.keeps)
}

fn returns_to(
    alloc: Global,
    rows: &Rows,
    p: u64,
    a: u64,
    s: &State,
    j: &Told,
    next: u64,
) -> Result<bool, Memory>
    ensures { IfOk result (λ r. IsTrue r → HasPoint rows.now.points p next (returned (told j.now) s.now a next)) }
{
    let behind = returned(alloc, j.keeps, s, a, next)?;
    Ok(has_point(rows.points.as_slice(), p, next, &behind))
}

fn comes_back(
    alloc: Global,
    rows: &Rows,
    p: u64,
    a: u64,
    s: &State,
    next: u64,
) -> Result<bool, Memory>
    ensures { IfOk result (λ r. IsTrue r → HasPoint rows.now.points p next (returned foreign s.now a next)) }
{
    let behind = returned(alloc, CONVENTION, s, a, next)?;
    Ok(has_point(rows.points.as_slice(), p, next, &behind))
}

fn is_called(
    alloc: Global,
    rows: &Rows,
    own: &Told,
    p: u64,
    a: u64,
    s: &State,
    q: u64,
    next: u64,
) -> Result<bool, Memory>
    ensures { IfOk result (λ r. IsTrue r → IsClosedIn rows.now own.now p a s.now (CallTo q next)) }
{
    let Some(j) = told_of(rows.procedures.as_slice(), q) else {
        return Ok(false);
    };
    if !j.returns || is_silent(rows.silent.as_slice(), a) {
        return Ok(true);
    }
    returns_to(alloc, rows, p, a, s, &j, next)
}

/// The point owes nothing to its flow.
fn is_closed_in(
    alloc: Global,
    rows: &Rows,
    own: &Told,
    p: u64,
    a: u64,
    s: &State,
    flow: &Flow,
) -> Result<bool, Memory>
    ensures { IfOk result (λ r. IsTrue r → IsClosedIn rows.now own.now p a s.now flow.now) }
{
    match flow {
        Flow::On(targets, u) => Ok(each_has_point(rows, p, targets.as_slice(), u)),
        Flow::ByTable(targets) => Ok(each_has_point(rows, p, targets.as_slice(), s)),
        Flow::CallTo(q, next) => is_called(alloc, rows, own, p, a, s, *q, *next),
        Flow::Foreign(next) => comes_back(alloc, rows, p, a, s, *next),
        Flow::Past(_, next, u) => Ok(has_point(rows.points.as_slice(), p, *next, u)),
        Flow::Return => Ok(restores(own, s)),
        Flow::TailOut => Ok(keeps_to_convention(own) && restores(own, s)),
        Flow::Stuck => Ok(keeps_to_convention(own)),
        Flow::Leave | Flow::Halt => Ok(true),
    }
}
