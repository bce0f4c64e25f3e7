//! The starts with simple choices of the registers' words.

ghost use Rattle.std.specs.Prelude.{◌≡◌, ◌<◌, ◌↔◌, IsTrue};
ghost use Rattle.word_rows.specs.Rows.{words_of, plus, unit};
ghost use Rattle.proof_verify.specs.Tests.{StartsInto};

use crate::openings::has;
use lead_basis::Basis;
use word_rows::Row;

/// The start with 1 in one register.
fn start_with(i: usize) -> Row<17>
    requires { i < 17 }
    ensures { result ≡ words_of (plus 1 (unit 17 16) (unit 17 i)) }
{
    let mut start = Row::zero().with(16, 1);
    start.add_scaled(1, &Row::zero().with(i, 1));
    start
}

/// Whether each start with a simple choice of registers is a combination of a basis.
pub(crate) fn starts_into(registers: u16, basis: &Basis<17>) -> bool
    ensures { IsTrue result ↔ StartsInto registers basis.now }
{
    if !basis.member(&Row::zero().with(16, 1)) {
        return false;
    }
    for i in 0..17usize {
        if has(registers, i) && !basis.member(&start_with(i)) {
            return false;
        }
    }
    true
}
