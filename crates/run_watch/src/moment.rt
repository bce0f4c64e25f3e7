//! The moment at which a run is.

ghost use Rattle.std.specs.Prelude.{◌≡◌, ◌+◌, ◌≤◌, length, find, option_copied, option_map};
ghost use Rattle.std.specs.List.Sorted.{IsBinarySearchResult, IsSearchInRange};
ghost use Rattle.flow_points.specs.PointLists.{point_cmp};
ghost use Rattle.report_text.specs.Reports.{Ascend};
ghost use Rattle.frame_offsets.specs.Frames.{AreOffsetsOf};
ghost use Rattle.rv_step.specs.Records.{IsClosing};
ghost use Rattle.run_watch.specs.Activations.{slots_from};
ghost use Rattle.run_watch.specs.Marks.{AreMarked};
ghost use Rattle.run_watch.specs.Moments.{moment_of};
ghost use Rattle.run_watch.specs.Runs.{scene_of, IsAtPoint, Describes, told_at, is_unreached, rows_in, is_return, is_told_of, point_of};

use crate::code_bytes::CodeBytes;
use crate::context::WatchCtx;
use crate::marks::SlotMarks;
use crate::stacks::Stack;
use crate::values::values;
use affine_lift::slot_writes;
use flow_points::{CodePoint, Flow, Point, Points};
use frame_offsets::Offsets;
use report_text::{PointRows, PointState, Report};
use rv_step::{Machine, StepRec};
use sqlite_items::at;
use word_rows::Row;

/// The moment of a run at a point.
pub(crate) fn context<'a>(
    points: &Points,
    offsets: &Offsets,
    report: &'a Report,
    code: &'a CodeBytes,
    stack: &'a Stack,
    marks: &'a SlotMarks,
    machine: &Machine,
    here: &StepRec,
    at: u32,
    code_point: &CodePoint,
) -> WatchCtx<'a>
    requires is_at { IsAtPoint (scene_of points.now offsets.now report.now code.now) (record { machine = machine.now; stack = stack.now }) at code_point.now }
    requires here { IsClosing machine.now here.now }
    requires offsets { AreOffsetsOf points.now offsets.now }
    requires few { length stack.now.earlier + 1 ≤ 65536 }
    requires marked { AreMarked marks.now (slots_from report.now.tracked.names 1 stack.now.earlier) }
    ensures { Describes (scene_of points.now offsets.now report.now code.now) (record { machine = machine.now; stack = stack.now }) at code_point.now (moment_of result) }
{
    let names = report.tracked.names.as_slice();
    let told = told_near(report.points.as_slice(), at, code_point.point);
    WatchCtx {
        point: at,
        proc_entry: stack.last.procedure,
        depth: stack.earlier.len() as u32 + 1,
        entry_sp: stack.last.entry_sp,
        entry_saved: stack.last.saved,
        relied: stack.last.relied,
        return_to: stack.last.return_to,
        is_return: code_point.flow == Flow::Return,
        values: values(machine, &here.regs, names, &stack.last),
        unreached: is_unreached(told),
        rows: rows_in(told),
        writable: slot_writes(points, offsets, &report.tracked, at),
        names,
        earlier: stack.earlier.as_slice(),
        last: &stack.last,
        marks,
        code,
    }
}

// What a report tells of a point, if it has it. Its points ascend.
fn told_at(told: &[PointRows], point: Point) -> Option<&PointRows>
    requires { ∥ Ascend told.now ∥₁ }
    ensures { option_copied result ≡ find (is_told_of point) told.now }
{
    match search(told, point) {
        Ok(i) => at(told, i),
        Err(_) => None,
    }
}

/// The same, where the point mostly has this number in the report.
pub(crate) fn told_near(told: &[PointRows], number: u32, point: Point) -> Option<&PointRows>
    requires { ∥ Ascend told.now ∥₁ }
    ensures { option_copied result ≡ find (is_told_of point) told.now }
{
    match at(told, number as usize) {
        Some(here) if point_of(here) == point => Some(here),
        _ => told_at(told, point),
    }
}

// Where a point stands in what a report tells.
fn search(told: &[PointRows], point: Point) -> Result<usize, usize>
    ensures within { IsSearchInRange result (length told.now) }
    ensures place { IsBinarySearchResult (λ t. point_cmp (point_of t) point) told.now result }
{
    told.binary_search_by_key(&point, |t| point_of(t))
}

// The point of which it is told.
fn point_of(told: &PointRows) -> Point
    ensures { result ≡ point_of told.now }
{
    Point {
        proc_entry: told.proc_entry,
        address: told.address,
    }
}

/// It calls the point unreached.
pub(crate) fn is_unreached(told: Option<&PointRows>) -> bool
    ensures { result ≡ is_unreached (option_map (λ t. t.state) (option_copied told.entry)) }
{
    match told {
        Some(point) => matches!(point.state, PointState::Unreached),
        None => false,
    }
}

/// The rows that it has there.
pub(crate) fn rows_in(told: Option<&PointRows>) -> &[Row<17>]
    ensures { result.now ≡ rows_in (option_map (λ t. t.state) (option_copied told.entry)) }
{
    match told {
        Some(point) => match &point.state {
            PointState::Rows(rows) => rows.as_slice(),
            PointState::Unreached => &[],
        },
        None => &[],
    }
}
