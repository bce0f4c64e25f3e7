//! The assignments of an edge.

ghost use Rattle.std.specs.Prelude.{◌≡◌};
ghost use Rattle.merged_heads.specs.Merges.{assigns_of};

use affine_prog::{Assign, Kind};

/// The assignments of a kind.
pub fn assigns_of(kind: &Kind) -> &[Assign]
    ensures { result.now ≡ assigns_of kind.now }
{
    match kind {
        Kind::Do(assigns) => assigns.as_slice(),
        Kind::Call { before, .. } => before.as_slice(),
    }
}
