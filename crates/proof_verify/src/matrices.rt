//! The matrices of assignments under simple choices.

ghost use Rattle.std.specs.Prelude.{◌≡◌, ◌<◌, ◌+◌, ◌++◌, ◌∷◌, [], All, IfOk, OnOk, if◌then◌else◌};
ghost use Rattle.word_rows.specs.Rows.{unit};
ghost use Rattle.affine_prog.specs.Assignments.{position_of, unknown_count, constant, matrix_of};
ghost use Rattle.proof_verify.specs.Tests.{AreSimpleMatrices};

use affine_prog::Assign;
use lead_basis::Memory;
use map_modules::{Mat, after_affine, identity};
use sqlite_items::Items;
use std::alloc::Global;
use word_rows::Row;

/// The row of the constant 1, or of 0.
fn chosen(one: bool) -> Row<17>
    ensures { result ≡ constant (if one then 1 else 0) }
{
    if one {
        Row::zero().with(16, 1)
    } else {
        Row::zero()
    }
}

/// The matrix of a list where the unknown word of this number is 1 and the others are 0; all are 0 where there is none.
fn matrix_under(assigns: &[Assign], one: usize) -> Mat
    requires { All (λ a. position_of a < 16) assigns.now }
    ensures { result ≡ matrix_of assigns.now (unit (unknown_count assigns.now) one) }
{
    let mut made = identity(16);
    let mut seen = 0usize;
    for assign in assigns {
        match assign {
            Assign::Affine(i, row) => made = after_affine(&made, usize::from(*i), row),
            Assign::Any(i) => {
                made = after_affine(&made, usize::from(*i), &chosen(seen == one));
                seen += 1;
            }
        }
    }
    made
}

/// How many words a list leaves to be chosen.
fn unknown_count(assigns: &[Assign]) -> usize
    ensures { result ≡ unknown_count assigns.now }
{
    let mut count = 0usize;
    for assign in assigns {
        if let Assign::Any(_) = assign {
            count += 1;
        }
    }
    count
}

fn push(matrices: &mut Items<Mat>, matrix: Mat) -> Result<(), Memory>
    ensures { OnOk result (matrices.new ≡ matrices.old ++ matrix ∷ []) }
{
    match matrices.push(matrix) {
        Ok(()) => Ok(()),
        Err(_) => Err(Memory),
    }
}

/// The matrices of a list under all simple choices.
pub(crate) fn matrices_of(alloc: Global, assigns: &[Assign]) -> Result<Items<Mat>, Memory>
    requires { All (λ a. position_of a < 16) assigns.now }
    ensures { IfOk result (AreSimpleMatrices assigns.now) }
{
    let mut matrices = Items::new(alloc);
    for one in 0..unknown_count(assigns) {
        push(&mut matrices, matrix_under(assigns, one))?;
    }
    push(&mut matrices, matrix_under(assigns, unknown_count(assigns)))?;
    Ok(matrices)
}
