//! What a table has at a point, and of a procedure.

ghost use Rattle.std.specs.Prelude.{◌≡◌, get_or};
ghost use Rattle.entry_values.specs.Values.{unknown};
ghost use Rattle.entry_tables.specs.Settling.{point_at, line_of, is_marked, told_at};

use entry_tables::{Line, Point, Told};
use entry_values::{Kind, Value};

// The instruction of a point, and whether the point is marked.
#[derive(Clone, Copy)]
pub(crate) struct Place {
    pub(crate) line: Option<Line>,
    pub(crate) marked: bool,
}

pub(crate) fn place_at(points: &[Point], p: u64, a: u64) -> Place
    ensures line { result.line ≡ line_of (point_at points.now p a) }
    ensures marked { result.marked ≡ is_marked (point_at points.now p a) }
{
    for point in points {
        if point.procedure == p && point.address == a {
            return Place {
                line: point.line,
                marked: point.marked,
            };
        }
    }
    Place {
        line: None,
        marked: false,
    }
}

/// What is told first of a procedure.
pub fn told_at(procedures: &[Told], q: u64) -> Option<Told>
    ensures { result ≡ told_at procedures.now q }
{
    for told in procedures {
        if told.procedure == q {
            return Some(*told);
        }
    }
    None
}

/// The value of a register; nothing is known of one that isn't there.
pub fn value_in(values: &[Value], r: u8) -> Value
    ensures { result ≡ get_or values.now r unknown }
{
    match values.get(usize::from(r)) {
        Some(v) => *v,
        None => Value::Any(0, Kind::Unset),
    }
}
