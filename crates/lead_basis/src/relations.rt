//! Relations, one for each pivot that isn't 1.

ghost use Rattle.std.specs.Prelude.{◌≡◌, ◌≢◌, ◌<◌, ◌≤◌, ◌^◌, ℕ, List, length, drop, All, ◌↔◌, IfOk, IsTrue};
ghost use Rattle.word_rows.specs.Rows.{lead};
ghost use Rattle.row_modules.specs.Bases.{IsLeadingBasis};
ghost use Rattle.lead_basis.specs.Mirrors.{Mirrors};
ghost use Rattle.lead_basis.specs.Relations.{pivot_first, place_after, closing_word, bound, settled, IsRelation, Solves};

use crate::mirror::{is_visible, turned};
use crate::{Basis, Memory};
use std::alloc::Global;
use word_rows::Row;

/// The relations of a module, from a basis of its turned rows.
pub(crate) fn relation_rows(
    alloc: Global,
    mirrored: &Basis<17>,
    visible: u32,
) -> Result<Vec<Row<17>>, Memory>
    ensures { IfOk result (λ rows. (source : List (List ℕ)) → Mirrors visible source mirrored.now → Solves visible source rows.items) }
{
    mirrored.known();
    let basis = mirrored.rows();
    let mut rows = Vec::new(alloc);
    let mut at = 0;
    for position in (0..17usize).rev() {
        let pivot = pivot_from(basis, at, 16 - position);
        if is_visible(visible, position) && pivot != 1 {
            let row = turned(&relation(basis, at, 16 - position, closing_word_of(pivot)));
            let Ok(_) = rows.insert(0, row) else {
                return Err(Memory);
            };
        }
        at = place_after(at, pivot);
    }
    Ok(rows)
}

/// The pivot of the row at a place, where it leads at the position, or 0.
fn pivot_from(basis: &[Row<17>], at: usize, position: usize) -> u64
    requires { position < 17 }
    ensures { result ≡ pivot_first (drop at basis.now) position }
{
    if at < basis.len() && leads_at(&basis[at], position) {
        basis[at].get(position)
    } else {
        0
    }
}

/// The next place, where a row leads, and the same one where none does.
fn place_after(at: usize, pivot: u64) -> usize
    requires { at < 2 ^ 63 }
    ensures { result ≡ place_after at pivot }
{
    if pivot == 0 { at } else { at + 1 }
}

/// Whether a row leads at a position.
fn leads_at(row: &Row<17>, position: usize) -> bool
    requires { position < 17 }
    ensures { IsTrue result ↔ (lead row.now ≡ position) }
{
    match row.lead() {
        Some(lead) => lead == position,
        None => false,
    }
}

/// 2^64 / pivot, and 1 for 0.
fn closing_word_of(pivot: u64) -> u64
    requires { pivot ≢ 1 }
    ensures { result ≡ closing_word pivot }
{
    if pivot == 0 {
        1
    } else {
        (u64::MAX - pivot + 1) / pivot + 1
    }
}

/// The row with `word` at a position and zeros after it whose sum of products with each row of the basis wraps to 0. The rows
/// from `at` on don't lead before the position.
fn relation(basis: &[Row<17>], at: usize, position: usize, word: u64) -> Row<17>
    requires basis { IsLeadingBasis 17 basis.now }
    requires at { at ≤ length basis.now }
    requires later { All (λ r. position ≤ lead r) (drop at basis.now) }
    requires position { position < 17 }
    requires word { word ≡ bound basis.now position }
    ensures { IsRelation 17 basis.now position word result }
{
    let mut row = Row::<17>::zero().with(position, word);
    for i in (0..at).rev() {
        settle(&mut row, &basis[i]);
    }
    row
}

/// Puts the word at the lead of `by` that makes the sum of products with `by` wrap to 0.
fn settle(row: &mut Row<17>, by: &Row<17>)
    requires { lead by.now < 17 }
    ensures { row.new ≡ settled row.old by.now }
{
    if let Some(lead) = by.lead() {
        let sum = row.dot(by);
        if sum != 0 {
            *row = row.with(lead, (u64::MAX - sum + 1) / by.get(lead));
        }
    }
}
