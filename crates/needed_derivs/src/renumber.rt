//! Derivations that are kept, under new numbers.

ghost use Rattle.std.specs.Prelude.{◌≡◌, ℕ, List, All, IfOk, length, map};
ghost use Rattle.affine_prog.specs.declared.Program.{Program};
ghost use Rattle.refute_path.specs.Answers.{IsAnswer};
ghost use Rattle.refute_path.specs.Derivations.{IsBreak};
ghost use Rattle.needed_derivs.specs.Needed.{IsNumberUpTo, numbers_in, AreEarlier, IsOrdered, IsOrderedIn, AreNeeded, AreNeededIn};
ghost use Rattle.needed_derivs.specs.Renumbered.{number_at, renumbered, Puts, AreRenumbered};

use crate::marks::marks_of;
use lead_basis::Memory;
use refute_path::derivations::append;
use refute_path::{Break, Deriv, Refuted};
use sqlite_items::Items;
use std::alloc::Global;

/// Derivations, and the number that each of the old ones has among them; 0 where it has none.
#[derive(Debug, Drop)]
struct Kept {
    derivs: Items<Deriv>,
    numbers: Items<u32>,
}

/// The new number of a derivation.
fn number_at(numbers: &[u32], n: u32) -> u32
    requires { IsNumberUpTo (length numbers.now) n }
    ensures { result ≡ number_at numbers.now n }
{
    numbers[n as usize - 1]
}

/// The derivation with the new numbers of those that it names.
fn renumbered(alloc: Global, numbers: &[u32], deriv: &Deriv) -> Result<Deriv, Memory>
    requires { All (IsNumberUpTo (length numbers.now)) (numbers_in deriv.now) }
    ensures { IfOk result (λ own. own ≡ renumbered numbers.now deriv.now) }
{
    match deriv {
        Deriv::Opening { proc, slots } => Ok(Deriv::Opening {
            proc: *proc,
            slots: *slots,
        }),
        Deriv::Step {
            before,
            edge,
            choice,
        } => {
            let Ok(choice) = Items::from_slice(alloc, choice.as_slice()) else {
                return Err(Memory);
            };
            Ok(Deriv::Step {
                before: number_at(numbers, *before),
                edge: *edge,
                choice,
            })
        }
        Deriv::Call {
            before,
            edge,
            callee,
        } => Ok(Deriv::Call {
            before: number_at(numbers, *before),
            edge: *edge,
            callee: number_at(numbers, *callee),
        }),
    }
}

/// Appends a derivation with new numbers where it is marked, and gives its own.
fn keep(
    alloc: Global,
    own: &mut Items<Deriv>,
    numbers: &[u32],
    marked: bool,
    deriv: &Deriv,
) -> Result<u32, Memory>
    requires { All (IsNumberUpTo (length numbers.now)) (numbers_in deriv.now) }
    ensures { IfOk result (Puts marked own.old own.new (renumbered numbers.now deriv.now)) }
{
    if !marked {
        return Ok(0);
    }
    let deriv = renumbered(alloc, numbers, deriv)?;
    append(own, deriv)
}

/// Those of the derivations that are marked, under new numbers.
fn keep_marked(alloc: Global, derivs: &[Deriv], marks: &[bool]) -> Result<Kept, Memory>
    requires size { length marks.now ≡ length derivs.now }
    requires earlier { AreEarlier derivs.now }
    ensures { IfOk result (λ kept. AreRenumbered derivs.now marks.now kept.derivs kept.numbers (length derivs.now)) }
{
    let mut own = Items::new(alloc);
    let mut numbers = Items::new(alloc);
    for (k, deriv) in derivs.iter().enumerate() {
        let number = keep(alloc, &mut own, numbers.as_slice(), marks[k], deriv)?;
        match numbers.push(number) {
            Ok(()) => {}
            Err(_) => return Err(Memory),
        }
    }
    Ok(Kept {
        derivs: own,
        numbers,
    })
}

/// The path under new numbers.
fn renumbered_path(alloc: Global, numbers: &[u32], path: &[u32]) -> Result<Items<u32>, Memory>
    requires { All (IsNumberUpTo (length numbers.now)) path.now }
    ensures { IfOk result (λ own. own ≡ map (number_at numbers.now) path.now) }
{
    let mut own = Items::new(alloc);
    for n in path {
        match own.push(number_at(numbers, *n)) {
            Ok(()) => {}
            Err(_) => return Err(Memory),
        }
    }
    Ok(own)
}

/// The counterexample with the derivations alone that its path needs.
fn break_needed(alloc: Global, found: &Break) -> Result<Break, Memory>
    requires { IsOrdered found.now.derivs found.now.path }
    ensures still { IfOk result (λ own. (program : Program) (u : ℕ) (a : List ℕ) → IsBreak program u a found.now → IsBreak program u a own) }
    ensures needed { IfOk result AreNeeded }
{
    let derivs = found.derivs.as_slice();
    let path = found.path.as_slice();
    let marks = marks_of(alloc, derivs, path)?;
    let kept = keep_marked(alloc, derivs, marks.as_slice())?;
    let path = renumbered_path(alloc, kept.numbers.as_slice(), path)?;
    Ok(Break {
        start: found.start,
        derivs: kept.derivs,
        path,
        value: found.value,
    })
}

/// The answer with the derivations alone that its path needs.
pub fn needed_alone(alloc: Global, answer: &Refuted) -> Result<Refuted, Memory>
    requires { IsOrderedIn answer.now }
    ensures still { IfOk result (λ own. (program : Program) (u : ℕ) (a : List ℕ) → IsAnswer program u a answer.now → IsAnswer program u a own) }
    ensures needed { IfOk result AreNeededIn }
{
    match answer {
        Refuted::Holds => Ok(Refuted::Holds),
        Refuted::Broken(found) => Ok(Refuted::Broken(break_needed(alloc, found)?)),
    }
}
