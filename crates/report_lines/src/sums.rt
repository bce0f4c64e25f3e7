//! The row of a relation's terms, term by term.

ghost use Rattle.std.specs.Prelude.{ℕ, ◌<◌, ◌≤◌, List, [], ◌∷◌, ◌++◌, length, All, IsTrue, ◌↔◌, Some};
ghost use Rattle.report_text.specs.Names.{IsName, IsSeenIn};
ghost use Rattle.report_lines.specs.NameTexts.{IsAddressed};
ghost use Rattle.report_lines.specs.Terms.{Term, IsFactor};
ghost use Rattle.report_lines.specs.Places.{IsFirst, IsPlace};
ghost use Rattle.report_lines.specs.Relations.{Tells};
ghost use Rattle.report_lines.specs.Sums.{IsSum};

use crate::names::read_name;
use crate::relation::Relation;
use report_text::Name;
use word_rows::Row;

/// What the terms so far tell.
#[derive(Clone, Copy)]
pub enum Sum {
    /// Their row, and the position behind the last one's.
    Rising { row: Row<17>, next: usize },
    /// The names are known, and not in order of positions.
    Disordered,
    /// Some name isn't known.
    Unknown,
}

impl Sum {
    /// Before the first term.
    pub fn none() -> Sum
        ensures { (names : List Name) (p : ℕ) → IsSum names p [] result }
    {
        let row = Row::zero();
        row.known();
        Sum::Rising { row, next: 0 }
    }

    /// With a further term.
    pub fn plus(self, names: &[Name], procedure: u64, word: u64, name: &[u8]) -> Sum
        requires allowed { All IsName names.now }
        requires addressed { All IsAddressed names.now }
        requires few { length names.now ≤ 16 }
        requires factor { IsFactor word }
        ensures { (terms : List Term) → IsSum names.now procedure terms self → IsSum names.now procedure (terms ++ (word, name.now) ∷ []) result }
    {
        match place_of(names, procedure, name) {
            None => Sum::Unknown,
            Some(place) => self.at(place, word),
        }
    }

    // With a further term whose name stands at this place.
    fn at(self, place: usize, word: u64) -> Sum
        requires within { place < 16 }
        requires factor { IsFactor word }
        ensures { (names : List Name) (p : ℕ) (terms : List Term) (text : List ℕ) → length names ≤ 16 → IsPlace names p text (Some place) → IsSum names p terms self → IsSum names p (terms ++ (word, text) ∷ []) result }
    {
        match self {
            Sum::Rising { row, next } => {
                if place < next {
                    Sum::Disordered
                } else {
                    let row = row.with(place, word);
                    row.known();
                    let next = place + 1;
                    Sum::Rising { row, next }
                }
            }
            Sum::Disordered => Sum::Disordered,
            Sum::Unknown => Sum::Unknown,
        }
    }

    /// What is told with this constant.
    pub fn with_constant(self, word: u64) -> Relation
        ensures { (names : List Name) (p : ℕ) (terms : List Term) → length names ≤ 16 → IsSum names p terms self → Tells names p terms word result }
    {
        match self {
            Sum::Rising { row, .. } => {
                let row = row.with(16, word);
                row.known();
                Relation::Row(row)
            }
            Sum::Disordered => Relation::Order,
            Sum::Unknown => Relation::UnknownName,
        }
    }
}

// The place of the name with this text, if it is seen in the procedure.
fn place_of(names: &[Name], procedure: u64, text: &[u8]) -> Option<usize>
    requires allowed { All IsName names.now }
    requires addressed { All IsAddressed names.now }
    ensures { IsPlace names.now procedure text.now result }
{
    match read_name(text) {
        None => None,
        Some(name) => {
            let place = first_place(names, name);
            if place == names.len() {
                None
            } else if is_seen(name, procedure) {
                Some(place)
            } else {
                None
            }
        }
    }
}

// The first place where the name stands, or how many names there are.
pub fn first_place(names: &[Name], name: Name) -> usize
    ensures { IsFirst names.now name result }
{
    let mut at = 0;
    while at < names.len() && names[at] != name {
        at += 1;
    }
    at
}

fn is_seen(name: Name, procedure: u64) -> bool
    ensures { IsTrue result ↔ IsSeenIn procedure name }
{
    match name {
        Name::Register(_) => true,
        Name::Slot { proc_entry, .. } => proc_entry == procedure,
    }
}
