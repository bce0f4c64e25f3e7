//! What the bases of a list keep.

ghost use Rattle.std.specs.Prelude.{All};
ghost use Rattle.row_modules.specs.Bases.{IsLeadingBasis};

use lead_basis::Basis;

/// Each is a leading-position basis.
pub(crate) fn known_bases<const N: usize>(bases: &[Basis<N>])
    ensures { All (IsLeadingBasis N) bases.now }
{
    for basis in bases {
        basis.known();
    }
}
