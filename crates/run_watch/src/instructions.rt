//! The instructions at points.

ghost use Rattle.std.specs.Prelude.{◌≡◌, ◌<◌, ◌⊎◌, ℕ, All, AllPairs, Contains, IfOk, OnOk, length, slice_get, Some};
ghost use Rattle.std.specs.List.Sorted.{IsBinarySearchResult, IsSearchInRange};
ghost use Rattle.std.specs.Ordering.{nat_cmp};
ghost use Rattle.run_watch.specs.Runs.{AreInstructionsOf, instruction_of, IsPut};

use crate::code_bytes::CodeBytes;
use crate::places::CodeAt;
use flow_points::{CodePoint, Points};
use std::alloc::{AllocError, Global};

/// The instructions at the points, by their different addresses, ascending.
pub(crate) fn instructions(alloc: Global, points: &Points) -> Result<CodeBytes, AllocError>
    ensures { IfOk result (AreInstructionsOf points.now.points) }
{
    points.known();
    let mut code = Vec::new(alloc);
    for i in 0..points.count() {
        put(&mut code, instruction_of(&points.code(i)))?;
    }
    Ok(CodeBytes::new(code))
}

// The instruction at a point.
fn instruction_of(point: &CodePoint) -> CodeAt
    ensures { result ≡ instruction_of point.now }
{
    CodeAt {
        address: point.point.address,
        length: point.length,
    }
}

// Puts an instruction at its place among others whose addresses ascend, unless there is one of its address.
fn put(code: &mut Vec<CodeAt>, at: CodeAt) -> Result<(), AllocError>
    requires { AllPairs (λ a b. a.address < b.address) code.old.items }
    ensures { OnOk result (IsPut code.old.items at code.new.items) }
{
    if let Err(place) = search(code, at.address) {
        code.insert(place, at)?;
    }
    Ok(())
}

fn search(code: &[CodeAt], address: u64) -> Result<usize, usize>
    ensures within { IsSearchInRange result (length code.now) }
    ensures place { IsBinarySearchResult (λ c. nat_cmp c.address address) code.now result }
{
    code.binary_search_by_key(&address, |at| at.address)
}
