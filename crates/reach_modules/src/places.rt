//! Where the basis of a procedure's exit is found.

ghost use Rattle.std.specs.Prelude.{◌≡◌, ◌++◌, ◌∷◌, [], map, OnOk, IfOk};
ghost use Rattle.std.specs.List.{range_with_len};

use affine_prog::Program;
use lead_basis::Memory;
use sqlite_items::Items;
use std::alloc::Global;

/// Adds a place to a list.
fn add_place(places: &mut Items<usize>, place: usize) -> Result<(), Memory>
    ensures { OnOk result (places.new ≡ places.old ++ place ∷ []) }
{
    match places.push(place) {
        Ok(()) => Ok(()),
        Err(_) => Err(Memory),
    }
}

/// The exit of each procedure.
pub(crate) fn exits_of(alloc: Global, program: &Program) -> Result<Items<usize>, Memory>
    ensures { IfOk result (λ exits. exits ≡ map (λ proc. proc.exit) program.now.procs) }
{
    let mut exits = Items::new(alloc);
    for proc in program.procs.as_slice() {
        add_place(&mut exits, proc.exit as usize)?;
    }
    Ok(exits)
}

/// The number of each procedure.
pub(crate) fn numbers_to(alloc: Global, end: usize) -> Result<Items<usize>, Memory>
    ensures { IfOk result (λ numbers. numbers ≡ range_with_len 0 end) }
{
    let mut numbers = Items::new(alloc);
    for p in 0..end {
        add_place(&mut numbers, p)?;
    }
    Ok(numbers)
}
