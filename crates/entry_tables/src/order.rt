//! The order of rows.

ghost use Rattle.std.specs.Prelude.{◌≡◌, ◌+◌, ◌<◌, suc, Some, slice_get, length, IsTrue};
ghost use Rattle.entry_tables.specs.Settling.{IsBefore, Ascend, AscendTold};

use crate::rows::{Point, Rows, Told};

/// Points and procedures ascend strictly.
pub(crate) fn all_ascend(rows: &Rows) -> bool
    ensures { IsTrue result → Ascend rows.now.points × AscendTold rows.now.procedures }
{
    points_ascend(rows.points.as_slice()) && procedures_ascend(rows.procedures.as_slice())
}

fn points_ascend(points: &[Point]) -> bool
    ensures { IsTrue result → Ascend points.now }
{
    let mut i = 0;
    while i < points.len() {
        if i + 1 < points.len() && !is_before_next(points, i) {
            return false;
        }
        i += 1;
    }
    true
}

fn is_before_next(points: &[Point], i: usize) -> bool
    requires { i + 1 < length points.now }
    ensures { IsTrue result → (x y : _) → slice_get points.now i ≡ Some x → slice_get points.now (suc i) ≡ Some y → IsBefore x y }
{
    is_before(&points[i], &points[i + 1])
}

fn is_before(x: &Point, y: &Point) -> bool
    ensures { IsTrue result → IsBefore x.now y.now }
{
    x.procedure < y.procedure || x.procedure == y.procedure && x.address < y.address
}

fn procedures_ascend(procedures: &[Told]) -> bool
    ensures { IsTrue result → AscendTold procedures.now }
{
    let mut i = 0;
    while i < procedures.len() {
        if i + 1 < procedures.len() && procedures[i].procedure >= procedures[i + 1].procedure {
            return false;
        }
        i += 1;
    }
    true
}
