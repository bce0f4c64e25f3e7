//! Bases of pairs, of triples and of rows of 289 words, and what annihilates the multiples of 8.

ghost use Rattle.std.specs.Prelude.{◌≡◌, ◌<◌};

use crate::laws::AllRows;
use lead_basis::{
    Basis, Memory, Steps, bases_tell_their_modules, generators_tell_annihilators,
    modules_have_bases,
};
use std::alloc::Global;
use std::marker::Brand;
use std::sync::ledger::{Blank, Ledger};
use word_rows::Row;

/// A row, whether the module grows by it, and the reduced basis then.
type Insertion = ([u64; 3], bool, &'static [[u64; 3]]);

const INSERTIONS: [Insertion; 21] = [
    ([0, 0, 0], false, &[]),
    ([8, 1, 0], true, &[[8, 1, 0], [0, 1 << 61, 0]]),
    ([16, 2, 0], false, &[[8, 1, 0], [0, 1 << 61, 0]]),
    ([0, 1 << 61, 0], false, &[[8, 1, 0], [0, 1 << 61, 0]]),
    (
        [0, 1 << 62, 1 << 63],
        true,
        &[[8, 1, 0], [0, 1 << 61, 0], [0, 0, 1 << 63]],
    ),
    (
        [0, 0, 1 << 63],
        false,
        &[[8, 1, 0], [0, 1 << 61, 0], [0, 0, 1 << 63]],
    ),
    (
        [0, 1 << 60, 0],
        true,
        &[[8, 1, 0], [0, 1 << 60, 0], [0, 0, 1 << 63]],
    ),
    ([0, 16, 4], true, &[[8, 1, 0], [0, 16, 4], [0, 0, 1 << 58]]),
    ([0, 32, 8], false, &[[8, 1, 0], [0, 16, 4], [0, 0, 1 << 58]]),
    ([8, 17, 4], false, &[[8, 1, 0], [0, 16, 4], [0, 0, 1 << 58]]),
    (
        [0, 0, 1 << 61],
        false,
        &[[8, 1, 0], [0, 16, 4], [0, 0, 1 << 58]],
    ),
    ([0, 0, 12], true, &[[8, 1, 0], [0, 16, 0], [0, 0, 4]]),
    ([24, 3, 0], false, &[[8, 1, 0], [0, 16, 0], [0, 0, 4]]),
    ([0, 8, 2], true, &[[8, 1, 0], [0, 8, 2], [0, 0, 4]]),
    ([4, 1, 1], true, &[[4, 0, 1], [0, 1, 0], [0, 0, 2]]),
    ([8, 2, 2], false, &[[4, 0, 1], [0, 1, 0], [0, 0, 2]]),
    ([0, 1, 2], false, &[[4, 0, 1], [0, 1, 0], [0, 0, 2]]),
    ([1 << 63, 0, 0], false, &[[4, 0, 1], [0, 1, 0], [0, 0, 2]]),
    ([2, 0, 0], true, &[[2, 0, 0], [0, 1, 0], [0, 0, 1]]),
    ([3, 0, 0], true, &[[1, 0, 0], [0, 1, 0], [0, 0, 1]]),
    ([5, 6, 7], false, &[[1, 0, 0], [0, 1, 0], [0, 0, 1]]),
];

/// Whether these are the rows, word by word.
fn has_rows<const N: usize>(basis: &Basis<N>, expected: &[[u64; N]]) -> bool {
    basis.known();
    let rows = basis.rows();
    for (i, words) in expected.iter().enumerate() {
        if rows.get(i) != Some(&Row::from_words(words)) {
            return false;
        }
    }
    rows.len() == expected.len()
}

fn pairs<L: Ledger>(alloc: Global, blank: Blank) -> Result<bool, Memory>
    requires name { blank.name ≡ L.name }
    requires parts { blank.parts ≡ L.parts }
    requires some { 0 < blank.parts }
{
    let mut steps = Steps::<L>::new(blank);
    let mut basis = Basis::<2>::new(alloc);
    let grew = basis.insert(Row::from_words(&[4, 1]), &mut steps)?;
    let shape = has_rows(&basis, &[[4, 1], [0, 1 << 62]]) && basis.length() == 64;
    let members = basis.member(&Row::from_words(&[0, 1 << 62]))
        && basis.member(&Row::from_words(&[8, 2]));
    let others = basis.member(&Row::from_words(&[2, 0])) || basis.member(&Row::from_words(&[0, 1]));
    let again = basis.insert(Row::from_words(&[0, 1 << 62]), &mut steps)?;
    Ok(grew && shape && members && !others && !again)
}

/// Inserts a row, and tells whether the answer and the reduced basis are these.
fn inserts<L: Ledger>(
    alloc: Global,
    basis: &mut Basis<3>,
    steps: &mut Steps<L>,
    insertion: &Insertion,
) -> Result<bool, Memory> {
    let (row, grows, expected) = insertion;
    let grew = basis.insert(Row::from_words(row), steps)?;
    let mut copy = Basis::<3>::new(alloc);
    for row in basis.rows() {
        copy.insert(*row, steps)?;
    }
    Ok(grew == *grows && has_rows(&copy.reduced(), expected))
}

fn triples<L: Ledger>(alloc: Global, blank: Blank) -> Result<bool, Memory>
    requires name { blank.name ≡ L.name }
    requires parts { blank.parts ≡ L.parts }
    requires some { 0 < blank.parts }
{
    let mut steps = Steps::<L>::new(blank);
    let mut basis = Basis::<3>::new(alloc);
    for insertion in INSERTIONS.iter() {
        if !inserts(alloc, &mut basis, &mut steps, insertion)? {
            return Ok(false);
        }
    }
    Ok(true)
}

/// The last row exchanges the first one, which then passes each of the other 288.
fn deepest<L: Ledger>(alloc: Global, blank: Blank) -> Result<bool, Memory>
    requires name { blank.name ≡ L.name }
    requires parts { blank.parts ≡ L.parts }
    requires some { 0 < blank.parts }
{
    let mut steps = Steps::<L>::new(blank);
    let mut basis = Basis::<289>::new(alloc);
    let mut ones = Row::<289>::zero();
    for i in 0..289 {
        basis.insert(Row::zero().with(i, 2), &mut steps)?;
        ones = ones.with(i, 1);
    }
    let before = basis.rows().len() == 289 && basis.length() == 289 * 63;
    let grew = basis.insert(ones, &mut steps)?;
    Ok(
        before
            && grew
            && basis.member(&ones)
            && basis.rows().len() == 289
            && basis.length() == 289 * 63 + 1,
    )
}

/// The row with this word at one position, and zeros elsewhere.
fn one(position: usize, word: u64) -> Row<17>
    requires { position < 17 }
{
    Row::<17>::zero().with(position, word)
}

fn eights<L: Ledger>(alloc: Global, blank: Blank) -> Result<bool, Memory>
    requires name { blank.name ≡ L.name }
    requires parts { blank.parts ≡ L.parts }
    requires some { 0 < blank.parts }
{
    let mut steps = Steps::<L>::new(blank);
    let mut states = Basis::<17>::new(alloc);
    let all = states.annihilator(alloc, 0x10001)?;
    states.insert(one(0, 8), &mut steps)?;
    states.insert(one(16, 1), &mut steps)?;
    let some = states.annihilator(alloc, 0x10001)?;
    let free = all.rows() == [one(0, 1), one(16, 1)].as_slice();
    Ok(free && some.rows() == [one(0, 1 << 61)].as_slice())
}

#[test]
fn laws_run_nothing() {
    bases_tell_their_modules();
    modules_have_bases();
    generators_tell_annihilators::<AllRows, AllRows>();
}

#[test]
fn a_row_with_an_even_pivot(rt: HostRuntime) {
    assert!(rt; pairs::<Brand>(rt.alloc(), Blank::new(1)) == Ok(true));
}

#[test]
fn a_table_of_insertions(rt: HostRuntime) {
    assert!(rt; triples::<Brand>(rt.alloc(), Blank::new(1)) == Ok(true));
}

#[test]
fn an_insertion_through_all_positions(rt: HostRuntime) {
    assert!(rt; deepest::<Brand>(rt.alloc(), Blank::new(1)) == Ok(true));
}

#[test]
fn what_annihilates_the_multiples_of_eight(rt: HostRuntime) {
    assert!(rt; eights::<Brand>(rt.alloc(), Blank::new(1)) == Ok(true));
}
