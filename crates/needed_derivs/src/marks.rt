//! Marks of the derivations that a path needs.

ghost use Rattle.std.specs.Prelude.{◌≡◌, ◌<◌, All, IfOk, false, length, replicate, slice_index_or};
ghost use Rattle.needed_derivs.specs.Needed.{IsNumberUpTo, numbers_in, IsOrdered};
ghost use Rattle.needed_derivs.specs.Marks.{Marks, named_where, AreMarks};

use lead_basis::Memory;
use refute_path::Deriv;
use std::alloc::Global;

/// Marks the derivations with these numbers.
fn mark_all(marks: &mut [bool], numbers: &[u32])
    requires { All (IsNumberUpTo (length marks.old)) numbers.now }
    ensures { Marks numbers.now marks.old marks.new }
{
    for number in numbers {
        marks[*number as usize - 1] = true;
    }
}

/// Marks those that a derivation names.
fn mark_named(marks: &mut [bool], deriv: &Deriv)
    requires { All (IsNumberUpTo (length marks.old)) (numbers_in deriv.now) }
    ensures { Marks (numbers_in deriv.now) marks.old marks.new }
{
    match deriv {
        Deriv::Opening { .. } => {}
        Deriv::Step { before, .. } => mark_all(marks, &[*before]),
        Deriv::Call { before, callee, .. } => mark_all(marks, &[*before, *callee]),
    }
}

/// Marks those that the derivation at a place names, where it is marked.
fn mark_at(marks: &mut [bool], place: usize, deriv: &Deriv)
    requires place { place < length marks.old }
    requires named { All (IsNumberUpTo (length marks.old)) (numbers_in deriv.now) }
    ensures { Marks (named_where (slice_index_or marks.old place false) deriv.now) marks.old marks.new }
{
    if marks[place] {
        mark_named(marks, deriv);
    }
}

/// Marks the derivations that a path needs, where none is marked.
fn mark_needed(marks: &mut [bool], derivs: &[Deriv], path: &[u32])
    requires none { marks.old ≡ replicate (length derivs.now) false }
    requires ordered { IsOrdered derivs.now path.now }
    ensures { AreMarks derivs.now path.now marks.new }
{
    mark_all(marks, path);
    let mut place = derivs.len();
    while place > 0 {
        place -= 1;
        mark_at(marks, place, &derivs[place]);
    }
}

/// The marks of derivations that a path needs.
pub(crate) fn marks_of(alloc: Global, derivs: &[Deriv], path: &[u32]) -> Result<Vec<bool>, Memory>
    requires { IsOrdered derivs.now path.now }
    ensures { IfOk result (λ marks. AreMarks derivs.now path.now marks.items) }
{
    let Ok(mut marks) = vec![in alloc; false; derivs.len()] else {
        return Err(Memory);
    };
    mark_needed(&mut marks, derivs, path);
    Ok(marks)
}
