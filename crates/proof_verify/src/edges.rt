//! One edge, tried.

ghost use Rattle.std.specs.Prelude.{◌≡◌, ◌<◌, ◌↔◌, All, IfOk, IsTrue, Contains, bit_and};
ghost use Rattle.row_modules.specs.Modules.{IsCombination};
ghost use Rattle.map_modules.specs.Matrices.{product, apply, linear_extension};
ghost use Rattle.affine_prog.specs.Assignments.{position_of};
ghost use Rattle.proof_verify.specs.Tests.{StepsInto, CallsInto, EntersInto};

use crate::matrices::matrices_of;
use affine_prog::Assign;
use lead_basis::{Basis, Memory};
use map_modules::{Mat, MatBasis, apply, extend_call, product};
use std::alloc::Global;
use word_rows::Row;

fn products_in(matrices: &[Mat], rows: &[Mat], basis: &MatBasis) -> bool
    ensures { IsTrue result ↔ All (λ m. All (λ b. IsCombination 289 (Contains basis.now) (product b m)) matrices.now) rows.now }
{
    rows.iter()
        .all(|m| matrices.iter().all(|b| basis.member(&product(b, m))))
}

/// Whether what assignments make of each row, under each simple choice, is a combination of a basis.
pub(crate) fn steps_into(
    alloc: Global,
    assigns: &[Assign],
    rows: &[Mat],
    basis: &MatBasis,
) -> Result<bool, Memory>
    requires { All (λ a. position_of a < 16) assigns.now }
    ensures { IfOk result (λ passes. IsTrue passes ↔ StepsInto assigns.now rows.now basis.now) }
{
    let matrices = matrices_of(alloc, assigns)?;
    Ok(products_in(matrices.as_slice(), rows, basis))
}

fn extended_in(extended: &Mat, matrices: &[Mat], rows: &[Mat], basis: &MatBasis) -> bool
    ensures { IsTrue result ↔ All (λ m. All (λ b. IsCombination 289 (Contains basis.now) (product extended.now (product b m))) matrices.now) rows.now }
{
    rows.iter().all(|m| {
        matrices
            .iter()
            .all(|b| basis.member(&product(extended, &product(b, m))))
    })
}

fn calls_in(
    registers: u16,
    slots: u16,
    callees: &[Mat],
    matrices: &[Mat],
    rows: &[Mat],
    basis: &MatBasis,
) -> bool
    requires { bit_and registers slots ≡ 0 }
    ensures { IsTrue result ↔ All (λ n. All (λ m. All (λ b. IsCombination 289 (Contains basis.now) (product (linear_extension registers slots n) (product b m))) matrices.now) rows.now) callees.now }
{
    callees.iter().all(|callee| {
        extended_in(
            &extend_call(callee, registers, slots),
            matrices,
            rows,
            basis,
        )
    })
}

/// Whether what a call makes of each row and each row of its callee, under each simple choice, is a combination of a basis.
pub(crate) fn calls_into(
    alloc: Global,
    registers: u16,
    slots: u16,
    before: &[Assign],
    rows: &[Mat],
    callees: &[Mat],
    basis: &MatBasis,
) -> Result<bool, Memory>
    requires placed { All (λ a. position_of a < 16) before.now }
    requires apart { bit_and registers slots ≡ 0 }
    ensures { IfOk result (λ passes. IsTrue passes ↔ CallsInto registers slots before.now rows.now callees.now basis.now) }
{
    let matrices = matrices_of(alloc, before)?;
    Ok(calls_in(registers, slots, callees, matrices.as_slice(), rows, basis))
}

fn applied_in(map: &Mat, states: &[Row<17>], basis: &Basis<17>) -> bool
    ensures { IsTrue result ↔ All (λ s. IsCombination 17 (Contains basis.now) (apply map.now s)) states.now }
{
    states.iter().all(|s| basis.member(&apply(map, s)))
}

fn row_states_in(m: &Mat, matrices: &[Mat], states: &[Row<17>], basis: &Basis<17>) -> bool
    ensures { IsTrue result ↔ All (λ b. All (λ s. IsCombination 17 (Contains basis.now) (apply (product b m.now) s)) states.now) matrices.now }
{
    matrices
        .iter()
        .all(|b| applied_in(&product(b, m), states, basis))
}

fn states_in(matrices: &[Mat], rows: &[Mat], states: &[Row<17>], basis: &Basis<17>) -> bool
    ensures { IsTrue result ↔ All (λ m. All (λ b. All (λ s. IsCombination 17 (Contains basis.now) (apply (product b m) s)) states.now) matrices.now) rows.now }
{
    for m in rows {
        if !row_states_in(m, matrices, states, basis) {
            return false;
        }
    }
    true
}

/// Whether what each row, and then assignments under each simple choice, make of each state is a combination of a basis.
pub(crate) fn enters_into(
    alloc: Global,
    before: &[Assign],
    rows: &[Mat],
    states: &[Row<17>],
    basis: &Basis<17>,
) -> Result<bool, Memory>
    requires { All (λ a. position_of a < 16) before.now }
    ensures { IfOk result (λ passes. IsTrue passes ↔ EntersInto before.now rows.now states.now basis.now) }
{
    let matrices = matrices_of(alloc, before)?;
    Ok(states_in(matrices.as_slice(), rows, states, basis))
}
