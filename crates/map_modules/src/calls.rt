//! Calls: the map of a callee as its caller sees it, and the test that a map leaves a position as it was.

ghost use Rattle.std.specs.Prelude.{◌≡◌, ◌<◌, ◌↔◌, IsTrue, bit_and};
ghost use Rattle.row_modules.specs.Positions.{has};
ghost use Rattle.map_modules.specs.Matrices.{entry, extension, linear_extension, Keeps};

use crate::Mat;
use crate::kernels::matrix_from;

/// Whether a set of positions, bit i for position i, has this one.
fn has(set: u16, i: usize) -> bool
    requires { i < 17 }
    ensures { result ≡ has set i }
{
    (u32::from(set) >> i) & 1 == 1
}

/// The map of a callee as its caller sees it: the rows of m at the registers and the constant, and the caller's slots
/// stay. They stay times m's word at (16, 16), so that the answer is linear in m; in a map of states that word is 1.
/// Each set has bit i for position i.
pub fn extend_call(m: &Mat, registers: u16, slots: u16) -> Mat
    requires { bit_and registers slots ≡ 0 }
    ensures linear { result ≡ linear_extension registers slots m.now }
    ensures map { entry m.now 16 16 ≡ 1 → result ≡ extension registers slots m.now }
{
    let constant = m.get(288);
    matrix_from(|i, j| {
        if has(registers, i) || i == 16 {
            m.get(17 * i + j)
        } else if has(slots, i) && i == j {
            constant
        } else {
            0
        }
    })
}

/// Whether row r is m's word at (16, 16) at column r, and 0 elsewhere: a map of states leaves position r as it was.
pub fn keeps(m: &Mat, r: usize) -> bool
    requires { r < 16 }
    ensures { IsTrue result ↔ Keeps m.now r }
{
    let one = m.get(288);
    for j in 0..17usize {
        let kept = if j == r { one } else { 0 };
        if m.get(17 * r + j) != kept {
            return false;
        }
    }
    true
}
