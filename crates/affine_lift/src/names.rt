//! Track lists.

ghost use Rattle.std.specs.Prelude.{◌≡◌, ◌≢◌, ◌↔◌, ℕ, ◌+◌, ◌<◌, ◌≤◌, List, length, All, Contains, IsTrue, IfOk, IfErr, IfSome, Some, MatchOption, MatchResult};
ghost use Rattle.std.specs.List.{after_first, before_first};
ghost use Rattle.std.specs.Str.{bytes_eq};
ghost use Rattle.rv_decode.specs.Registers.{register_of};
ghost use Rattle.report_text.specs.Names.{IsName, IsNarrowName};
ghost use Rattle.report_text.specs.declared.names.Name.{Name};
ghost use Rattle.numeral_read.specs.Lists.{texts_of};
ghost use Rattle.affine_lift.specs.declared.width.Width.TheVariants.{Narrow};
ghost use Rattle.affine_lift.specs.Tracking.{is_colon, HasColon, AreNames, Breaks, HasName, IsDistance, IsFurther, IsIn, IsNamesRefusal, IsPlace, IsSlotText, IsTracked, IsTrackRefusal, IsBelowBy, IsNameBy, NamesBy, scope_by, scope_of, value_of};

use crate::width::Width;
use elf_image::{Image, Symbol};
use flow_points::Points;
use numeral_read::{begins_with, behind, items_between_commas, number_of, read_address};
use refusals::TrackRefusal;
use report_text::{Name, NarrowTracked, Tracked};
use rv_decode::read_register;
use sqlite_items::Items;
use std::alloc::{AllocError, Global};

/// The names of a list, in order, or the first cause for which the text is no list.
pub fn read_tracked(
    alloc: Global,
    text: &str,
    image: &Image,
    points: &Points,
) -> Result<Tracked, TrackRefusal>
    ensures { MatchResult result (λ tracked. IsTracked (scope_of image.now.symbols points.now.procedures) text.now tracked.names)
        (IsTrackRefusal (scope_of image.now.symbols points.now.procedures) text.now) }
{
    match names_in(alloc, Width::Wide, text, image, points) {
        Ok(names) => Ok(Tracked { names }),
        Err(refusal) => Err(refusal),
    }
}

/// The same for slots of four bytes.
pub fn read_narrow_tracked(
    alloc: Global,
    text: &str,
    image: &Image,
    points: &Points,
) -> Result<NarrowTracked, TrackRefusal>
    ensures { MatchResult result (λ tracked. IsTracked (scope_by Narrow image.now.symbols points.now.procedures) text.now tracked.names)
        (IsTrackRefusal (scope_by Narrow image.now.symbols points.now.procedures) text.now) }
{
    match names_in(alloc, Width::Narrow, text, image, points) {
        Ok(names) => Ok(NarrowTracked { names }),
        Err(refusal) => Err(refusal),
    }
}

fn names_in(
    alloc: Global,
    width: Width,
    text: &str,
    image: &Image,
    points: &Points,
) -> Result<Items<Name>, TrackRefusal>
    ensures names { MatchResult result (IsTracked (scope_by width image.now.symbols points.now.procedures) text.now)
        (IsTrackRefusal (scope_by width image.now.symbols points.now.procedures) text.now) }
    ensures allowed { IfOk result (All (IsNameBy width)) }
    ensures some { IfOk result (λ names. 1 ≤ length names) }
    ensures few { IfOk result (λ names. length names ≤ 16) }
{
    if text.is_empty() {
        return Err(TrackRefusal::Empty);
    }
    let items = items_between_commas(alloc, text)?;
    if items.len() > 16 {
        return Err(TrackRefusal::TooMany(16));
    }
    let symbols = image.symbols.as_slice();
    let names = names_of(alloc, width, &items, symbols, points.procedures())?;
    Ok(names)
}

// The names of the items, or the first item that is no further name.
fn names_of(
    alloc: Global,
    width: Width,
    items: &[&str],
    symbols: &[Symbol],
    procedures: &[u64],
) -> Result<Items<Name>, TrackRefusal>
    requires { length items.now ≤ 16 }
    ensures names { MatchResult result (AreNames (scope_by width symbols.now procedures.now) (texts_of items.now))
        (IsNamesRefusal (scope_by width symbols.now procedures.now) (texts_of items.now)) }
    ensures allowed { IfOk result (All (IsNameBy width)) }
{
    let mut names = Items::new(alloc);
    for (i, item) in items.iter().enumerate() {
        match further_name(
            width,
            item,
            i as u64 + 1,
            symbols,
            procedures,
            names.as_slice(),
        ) {
            Ok(name) => names.push(name)?,
            Err(refusal) => return Err(refusal),
        }
    }
    Ok(names)
}

// The name of the item at this place, which is to be in the procedures and none of the names before it.
fn further_name(
    width: Width,
    item: &str,
    place: u64,
    symbols: &[Symbol],
    procedures: &[u64],
    names: &[Name],
) -> Result<Name, TrackRefusal>
    ensures name { MatchResult result (IsFurther (scope_by width symbols.now procedures.now) names.now item.now)
        (Breaks (scope_by width symbols.now procedures.now) names.now item.now place) }
    ensures allowed { IfOk result (IsNameBy width) }
{
    let name = match name_of(width, item, place, symbols) {
        Ok(name) => name,
        Err(refusal) => return Err(refusal),
    };
    if !is_in(procedures, name) {
        return Err(TrackRefusal::NoSuchProcedure(place));
    }
    if is_listed(names, name) {
        return Err(TrackRefusal::Repeated(place));
    }
    Ok(name)
}

fn is_in(procedures: &[u64], name: Name) -> bool
    ensures { IsTrue result ↔ IsIn procedures.now name }
{
    match name {
        Name::Register(_) => true,
        Name::Slot { proc_entry, .. } => procedures.contains(&proc_entry),
    }
}

fn is_listed(names: &[Name], name: Name) -> bool
    ensures { IsTrue result ↔ Contains names.now name }
{
    names.contains(&name)
}

// The name that the item at this place is.
fn name_of(width: Width, item: &str, place: u64, symbols: &[Symbol]) -> Result<Name, TrackRefusal>
    ensures named { IfOk result (NamesBy width symbols.now item.now) }
    ensures allowed { IfOk result (IsNameBy width) }
    ensures refused { IfErr result (λ refusal. (procedures : List ℕ) (names : List Name) →
        Breaks (scope_by width symbols.now procedures) names item.now place refusal) }
{
    let Some((before, rest)) = parts(item) else {
        return match register_named(item) {
            Some(register) => Ok(Name::Register(register)),
            None => Err(TrackRefusal::UnknownName(place)),
        };
    };
    let Some(proc_entry) = place_of(before, symbols) else {
        return Err(TrackRefusal::UnknownName(place));
    };
    match distance_of(width, rest) {
        Some(below) => Ok(Name::Slot { proc_entry, below }),
        None => Err(TrackRefusal::BadSlot(place)),
    }
}

fn register_named(item: &str) -> Option<u8>
    ensures register { MatchOption result ((r : ℕ) → register_of item.now ≡ Some r → r ≢ 0 → ⊥) (λ r. register_of item.now ≡ Some r) }
    ensures allowed { IfSome result (λ r. (1 ≤ r) × (r < 32)) }
{
    match read_register(item) {
        Some(register) if register != 0 => Some(register),
        _ => None,
    }
}

// What stands before and behind the first colon.
fn parts(item: &str) -> Option<(&str, &str)>
    ensures { MatchOption result (HasColon item.now → ⊥) (λ s. HasColon item.now
        × (s.0.now ≡ before_first is_colon item.now) × (s.1.now ≡ after_first is_colon item.now)) }
{
    item.split_once(':')
}

// The address that a text is or names.
fn place_of(text: &str, symbols: &[Symbol]) -> Option<u64>
    ensures { MatchOption result ((p : ℕ) → IsPlace symbols.now text.now p → ⊥) (IsPlace symbols.now text.now) }
{
    match read_address(text) {
        Some(address) => Some(address),
        None => value_of(symbols, text),
    }
}

// The value of the first symbol of this name.
fn value_of(symbols: &[Symbol], text: &str) -> Option<u64>
    ensures { result ≡ value_of symbols.now text.now }
{
    let symbol = symbols.iter().find(|s| is_named(s, text))?;
    Some(symbol.value)
}

fn is_named(symbol: &Symbol, text: &str) -> bool
    ensures { result ≡ bytes_eq symbol.now.name text.now }
{
    symbol.name.as_slice() == text.as_bytes()
}

// The distance of a slot that a text is, as `-` and decimal digits.
fn distance_of(width: Width, text: &str) -> Option<u16>
    ensures { MatchOption result ((n : ℕ) → IsDistance text.now n → IsBelowBy width n → ⊥) (λ n. IsDistance text.now n × IsBelowBy width n) }
{
    let Some(digits) = behind(text, '-') else {
        return None;
    };
    if begins_with(digits, b'0') {
        return None;
    }
    let below = number_of(digits, 10)?;
    if is_below(width, below) {
        Some(below as u16)
    } else {
        None
    }
}

// Whether a slot may stand so many bytes below.
fn is_below(width: Width, below: u64) -> bool
    ensures is { IsTrue result ↔ IsBelowBy width below }
    ensures small { IsTrue result → below ≤ 2048 }
{
    match width {
        Width::Wide => (8..=2048).contains(&below) && below % 8 == 0,
        Width::Narrow => (4..=2048).contains(&below) && below % 4 == 0,
    }
}
