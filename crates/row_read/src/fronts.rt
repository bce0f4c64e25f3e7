//! The fronts of a row's text: its first term, its first two, and so on.

ghost use Rattle.std.specs.Prelude.{◌≡◌, ℕ, ◌≤◌, List, length, All};
ghost use Rattle.report_text.specs.Names.{IsName};
ghost use Rattle.report_lines.specs.NameTexts.{IsAddressed};
ghost use Rattle.report_lines.specs.Terms.{Term};
ghost use Rattle.report_lines.specs.Relations.{IsRelation, relation_text};
ghost use Rattle.row_read.specs.Rows.{IsRowText, IsRowReading};
ghost use Rattle.row_read.specs.Fronts.{IsFrontTold};

use crate::refusal::RowRefusal;
use report_lines::{Relation, cut_at, read_relation};
use report_text::Name;
use word_rows::Row;

/// The row that a text tells, or its first term that breaks a rule. A front that tells a row has at most as many terms as there
/// are names, so that few fronts are read.
pub(crate) fn read_fronts(
    names: &[Name],
    procedure: u64,
    text: &[u8],
) -> Result<Row<17>, RowRefusal>
    requires allowed { All IsName names.now }
    requires addressed { All IsAddressed names.now }
    requires few { length names.now ≤ 16 }
    requires shape { IsRowText text.now }
    ensures { IsRowReading names.now procedure text.now result }
{
    let mut place = 0u64;
    let mut rest = text;
    while let Some((word, behind)) = cut_at(b' ', rest) {
        let end = text.len() - rest.len() + word.len();
        place += 1;
        match read_front(names, procedure, &text[..end], place) {
            Ok(_) => {}
            Err(refusal) => return Err(refusal),
        }
        rest = behind;
    }
    read_front(names, procedure, text, place + 1)
}

// What a front tells whose last term stands at this place.
fn read_front(
    names: &[Name],
    procedure: u64,
    front: &[u8],
    place: u64,
) -> Result<Row<17>, RowRefusal>
    requires allowed { All IsName names.now }
    requires addressed { All IsAddressed names.now }
    requires few { length names.now ≤ 16 }
    requires shape { IsRowText front.now }
    ensures { (terms : List Term) (c : ℕ) → IsRelation terms c → front.now ≡ relation_text terms c → IsFrontTold names.now procedure terms c place result }
{
    let Some(relation) = read_relation(names, procedure, front) else {
        unreachable!();
    };
    match relation {
        Relation::Row(row) => Ok(row),
        Relation::UnknownName => Err(RowRefusal::UnknownName(place)),
        Relation::Order => Err(RowRefusal::Order(place)),
    }
}
