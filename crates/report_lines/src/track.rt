//! The reader of the tracked names.

ghost use Rattle.std.specs.Prelude.{◌≢◌, ◌↔◌, IsTrue, AllPairs};
ghost use Rattle.report_lines.specs.Parts.{parts_of};
ghost use Rattle.report_lines.specs.Terms.{IsNameText};
ghost use Rattle.report_lines.specs.Tracks.{AreListed, IsNamePushed, IsNamesReading, IsTrackReading};

use crate::cutting::{behind, cut_at};
use crate::faults::TrackFault;
use crate::names::read_name;
use crate::sums::first_place;
use report_text::{Name, Tracked};
use sqlite_items::Items;
use std::alloc::Global;

/// The names that are tracked, by the line that tells them.
pub fn read_track(alloc: Global, piece: &[u8]) -> Result<Tracked, TrackFault>
    ensures { IsTrackReading piece.now result }
{
    match behind(b"track ", piece) {
        None => Err(TrackFault::Syntax),
        Some(list) => {
            if !are_listed(list) {
                return Err(TrackFault::Syntax);
            }
            match read_names(alloc, list) {
                Err(fault) => Err(fault),
                Ok(names) => {
                    if are_distinct(names.as_slice()) {
                        Ok(Tracked { names })
                    } else {
                        Err(TrackFault::Order)
                    }
                }
            }
        }
    }
}

// Whether the text is 1 to 16 texts between commas that can be names.
fn are_listed(list: &[u8]) -> bool
    ensures { IsTrue result ↔ AreListed (parts_of 44 list.now) }
{
    let mut rest = list;
    let mut count = 1usize;
    while let Some((text, behind)) = cut_at(b',', rest) {
        if count == 16 {
            return false;
        }
        if !is_name_text(text) {
            return false;
        }
        count += 1;
        rest = behind;
    }
    is_name_text(rest)
}

fn is_name_text(text: &[u8]) -> bool
    ensures { IsTrue result ↔ IsNameText text.now }
{
    match cut_at(b' ', text) {
        None => !text.is_empty(),
        Some(_) => false,
    }
}

// The names between the commas.
fn read_names(alloc: Global, list: &[u8]) -> Result<Items<Name>, TrackFault>
    ensures { IsNamesReading (parts_of 44 list.now) result }
{
    let mut names = Items::new(alloc);
    let mut rest = list;
    while let Some((text, behind)) = cut_at(b',', rest) {
        match push_name(&mut names, text) {
            Err(fault) => return Err(fault),
            Ok(()) => rest = behind,
        }
    }
    match push_name(&mut names, rest) {
        Err(fault) => Err(fault),
        Ok(()) => Ok(names),
    }
}

// Appends the name with this text.
fn push_name(names: &mut Items<Name>, text: &[u8]) -> Result<(), TrackFault>
    ensures { IsNamePushed text.now names.old names.new result }
{
    match read_name(text) {
        None => Err(TrackFault::UnknownName),
        Some(name) => match names.push(name) {
            Ok(()) => Ok(()),
            Err(_) => Err(TrackFault::Memory),
        },
    }
}

// Whether no name comes twice.
fn are_distinct(names: &[Name]) -> bool
    ensures { IsTrue result ↔ AllPairs (λ a b. a ≢ b) names.now }
{
    for (i, name) in names.iter().enumerate() {
        if first_place(names, *name) != i {
            return false;
        }
    }
    true
}
