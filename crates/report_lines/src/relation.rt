//! The reader of a relation's line.

ghost use Rattle.std.specs.Prelude.{ℕ, ◌≤◌, List, length, All};
ghost use Rattle.report_text.specs.Names.{IsName};
ghost use Rattle.report_lines.specs.NameTexts.{IsAddressed};
ghost use Rattle.report_lines.specs.Terms.{Term};
ghost use Rattle.report_lines.specs.Relations.{IsRelationReading};
ghost use Rattle.report_lines.specs.Fronts.{IsFront};
ghost use Rattle.report_lines.specs.Sums.{IsSum};

use crate::cutting::cut_at;
use crate::sums::Sum;
use crate::words::{Word, read_lead, read_word};
use report_text::Name;
use word_rows::Row;

/// What the line of a relation tells.
#[derive(Clone, Copy)]
pub enum Relation {
    /// The row with its terms and its constant.
    Row(Row<17>),
    /// Some name isn't a tracked one that is seen in the procedure.
    UnknownName,
    /// The names are known, and not in order of positions.
    Order,
}

/// What the text behind `rel` tells in the procedure at the address `procedure`; `None` where it is no relation's.
pub fn read_relation(names: &[Name], procedure: u64, text: &[u8]) -> Option<Relation>
    requires allowed { All IsName names.now }
    requires addressed { All IsAddressed names.now }
    requires few { length names.now ≤ 16 }
    ensures { IsRelationReading names.now procedure text.now result }
{
    match cut_at(b' ', text) {
        None => match read_lead(text) {
            None => None,
            Some((word, name)) => {
                let sum = Sum::none().plus(names, procedure, word, name);
                Some(sum.with_constant(0))
            }
        },
        Some((lead, behind)) => match read_lead(lead) {
            None => None,
            Some((word, name)) => {
                let sum = Sum::none().plus(names, procedure, word, name);
                read_behind(names, procedure, sum, behind)
            }
        },
    }
}

// The same from what stands behind the first terms and a space.
fn read_behind(names: &[Name], procedure: u64, sum: Sum, text: &[u8]) -> Option<Relation>
    requires allowed { All IsName names.now }
    requires addressed { All IsAddressed names.now }
    requires few { length names.now ≤ 16 }
    ensures { (whole : List ℕ) (terms : List Term) → IsFront whole text.now terms → IsSum names.now procedure terms sum → IsRelationReading names.now procedure whole result }
{
    let mut sum = sum;
    let mut rest = text;
    while let Some((word, behind)) = cut_at(b' ', rest) {
        match read_word(word) {
            Some(Word::Multiple(factor, name)) => {
                sum = sum.plus(names, procedure, factor, name);
            }
            Some(Word::Constant(_)) => return None,
            None => return None,
        }
        rest = behind;
    }
    match read_word(rest) {
        Some(Word::Multiple(factor, name)) => {
            Some(sum.plus(names, procedure, factor, name).with_constant(0))
        }
        Some(Word::Constant(word)) => Some(sum.with_constant(word)),
        None => None,
    }
}
