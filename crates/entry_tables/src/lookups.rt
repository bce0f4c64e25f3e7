//! Where something stands in the lists of a table.

ghost use Rattle.std.specs.Prelude.{◌≡◌, ◌<◌, map, slice_get, length, Contains, IfSome, IfOk, IsTrue};
ghost use Rattle.entry_values.specs.States.{KnowsNoMore};
ghost use Rattle.entry_tables.specs.Settling.{HasPoint, HasTold, guess_at, is_silent};

use crate::less::knows_no_more;
use crate::rows::{Guess, Point, Told};
use entry_values::{Memory, State};
use sqlite_items::Items;
use std::alloc::Global;

/// The number of the point at b in the procedure p, where points ascend.
pub fn find(points: &[Point], p: u64, b: u64) -> Option<usize>
    ensures within { IfSome result (λ i. i < length points.now) }
    ensures found { IfSome result (λ i. IfSome (slice_get points.now i) (λ point. (point.procedure ≡ p) × (point.address ≡ b))) }
{
    let mut low = 0;
    let mut high = points.len();
    while low < high {
        let middle = low + (high - low) / 2;
        let point = &points[middle];
        if point.procedure == p && point.address == b {
            return Some(middle);
        }
        if point.procedure < p || point.procedure == p && point.address < b {
            low = middle + 1;
        } else {
            high = middle;
        }
    }
    None
}

/// A point at b in the procedure p claims nothing that u doesn't.
pub(crate) fn has_point(points: &[Point], p: u64, b: u64, u: &State) -> bool
    ensures { IsTrue result → HasPoint points.now p b u.now }
{
    match find(points, p, b) {
        Some(i) => knows_no_more(u, &points[i].state),
        None => false,
    }
}

/// What is told of a procedure, where procedures ascend.
pub(crate) fn told_of(procedures: &[Told], q: u64) -> Option<Told>
    ensures { IfSome result (HasTold procedures.now q) }
{
    let mut low = 0;
    let mut high = procedures.len();
    while low < high {
        let middle = low + (high - low) / 2;
        let told = procedures[middle];
        if told.procedure == q {
            return Some(told);
        }
        if told.procedure < q {
            low = middle + 1;
        } else {
            high = middle;
        }
    }
    None
}

/// Something is told of the procedure, if this is true.
pub fn has_procedure(procedures: &[Told], q: u64) -> bool
    ensures { IsTrue result → Contains (map (λ k. k.procedure) procedures.now) q }
{
    match told_of(procedures, q) {
        Some(_) => true,
        None => false,
    }
}

/// The targets that are taken for the jump at an address.
pub(crate) fn guess_at(
    alloc: Global,
    guesses: &[Guess],
    a: u64,
) -> Result<Option<Items<u64>>, Memory>
    ensures { IfOk result (λ g. g ≡ guess_at guesses.now a) }
{
    for guess in guesses {
        if guess.address == a {
            return match Items::from_slice(alloc, guess.targets.as_slice()) {
                Ok(targets) => Ok(Some(targets)),
                Err(_) => Err(Memory),
            };
        }
    }
    Ok(None)
}

/// The call at an address is taken not to return.
pub fn is_silent(silent: &[u64], a: u64) -> bool
    ensures { result ≡ is_silent silent.now a }
{
    for call in silent {
        if *call == a {
            return true;
        }
    }
    false
}
