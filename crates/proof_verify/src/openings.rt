//! The openings of a procedure under simple choices.

ghost use Rattle.std.specs.Prelude.{◌≡◌, ◌<◌, ◌↔◌, IsTrue, slice_index, if◌then◌else◌, ◌==◌, ◌&&◌, ◌||◌};
ghost use Rattle.word_rows.specs.Words.{word};
ghost use Rattle.row_modules.specs.Positions.{has};
ghost use Rattle.affine_prog.specs.LevelPaths.{opening_map};
ghost use Rattle.proof_verify.specs.Tests.{OpensInto};

use map_modules::{Mat, MatBasis};
use word_rows::Row;

/// Whether a set of positions has this one.
pub(crate) fn has(set: u16, i: usize) -> bool
    requires { i < 17 }
    ensures { result ≡ has set i }
{
    (u32::from(set) >> i) & 1 == 1
}

/// The word of an opening's map at a row and a column.
fn opening_word(registers: u16, slots: u16, words: &Row<16>, i: usize, j: usize) -> u64
    requires row { i < 17 }
    ensures { result ≡ word (if has registers i || (i == 16) then (if j == i then 1 else 0) else if has slots i && (j == 16) then slice_index words.now i else 0) }
{
    words.known();
    if has(registers, i) || i == 16 {
        if j == i { 1 } else { 0 }
    } else if has(slots, i) && j == 16 {
        words.get(i)
    } else {
        0
    }
}

/// The map of an opening that gives each slot its word.
fn opening(registers: u16, slots: u16, words: &Row<16>) -> Mat
    ensures { result ≡ opening_map registers slots words.now }
{
    let mut made = [0u64; 289];
    for (at, word) in made.iter_mut().enumerate() {
        *word = opening_word(registers, slots, words, at / 17, at % 17);
    }
    Row::from_words(&made)
}

/// Whether each opening under a simple choice of the slots' words is a combination of a basis.
pub(crate) fn opens_into(registers: u16, slots: u16, basis: &MatBasis) -> bool
    ensures { IsTrue result ↔ OpensInto registers slots basis.now }
{
    if !basis.member(&opening(registers, slots, &Row::zero())) {
        return false;
    }
    for i in 0..16usize {
        if has(slots, i) && !basis.member(&opening(registers, slots, &Row::zero().with(i, 1))) {
            return false;
        }
    }
    true
}
