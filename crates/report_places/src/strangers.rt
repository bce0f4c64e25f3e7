//! What a report tells of that the file doesn't have.

ghost use Rattle.std.specs.Prelude.{◌≡◌, ◌↔◌, IsTrue};
ghost use Rattle.report_places.specs.Strangers.{FirstIs, IsStrangeName, IsStrangePoint, IsStranger, procedure_of, first_some};

use flow_points::Points;
use report_text::{Name, PointRows, Report};

/// The procedure of the first slot name whose procedure is none of the file's; else the address of the first point that is
/// none of the file's; if there is either.
pub fn stranger(points: &Points, report: &Report) -> Option<u64>
    ensures { IsStranger points.now report.now.tracked.names report.now.points result }
{
    either(
        strange_name(points.procedures(), report.tracked.names.as_slice()),
        strange_point(points, report.points.as_slice()),
    )
}

// The first of two answers that is one.
fn either(one: Option<u64>, other: Option<u64>) -> Option<u64>
    ensures { result ≡ first_some one other }
{
    one.or(other)
}

// The procedure of the first slot name whose procedure is none of these.
fn strange_name(procedures: &[u64], names: &[Name]) -> Option<u64>
    ensures { FirstIs (IsStrangeName procedures.now) procedure_of names.now result }
{
    for name in names {
        if is_strange_name(procedures, *name) {
            return Some(procedure_of(*name));
        }
    }
    None
}

// The name is a slot of a procedure that is none of these.
fn is_strange_name(procedures: &[u64], name: Name) -> bool
    ensures { IsTrue result ↔ IsStrangeName procedures.now name }
{
    match name {
        Name::Register(_) => false,
        Name::Slot { proc_entry, .. } => !procedures.contains(&proc_entry),
    }
}

// The procedure of a slot.
fn procedure_of(name: Name) -> u64
    ensures { result ≡ procedure_of name }
{
    match name {
        Name::Register(_) => 0,
        Name::Slot { proc_entry, .. } => proc_entry,
    }
}

// The address of the first point that is none of these.
fn strange_point(points: &Points, told: &[PointRows]) -> Option<u64>
    ensures { FirstIs (IsStrangePoint points.now.points) (λ t. t.address) told.now result }
{
    for point in told {
        if is_strange_point(points, point) {
            return Some(point.address);
        }
    }
    None
}

// The point is none of these.
fn is_strange_point(points: &Points, told: &PointRows) -> bool
    ensures { IsTrue result ↔ IsStrangePoint points.now.points told.now }
{
    points.find(told.proc_entry, told.address).is_none()
}
