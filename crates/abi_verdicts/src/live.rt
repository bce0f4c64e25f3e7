//! Procedures that have an end.

ghost use Rattle.std.specs.Prelude.{◌≡◌, ◌++◌, ◌∷◌, [], true, IfOk, OnOk};
ghost use Rattle.abi_verdicts.specs.Ends.{lives, is_live, has_end, is_told, are_told};

use crate::ways::{End, Way};
use entry_values::Memory;
use entry_walks::is_among;
use sqlite_items::Items;
use std::alloc::Global;

/// Procedures among which is each that has an end, where a call of one of them is an end. They are found in rounds,
/// as many as the longest chain of such calls has, and one more.
pub fn ending(alloc: Global, ends: &[End]) -> Result<Items<u64>, Memory>
    ensures { IfOk result (λ ending. are_told ending ends.now ≡ true) }
{
    let mut all = Items::new(alloc);
    let mut left = ends.len();
    while left > 0 && !are_told(all.as_slice(), ends) {
        add_untold(&mut all, ends)?;
        left -= 1;
    }
    if are_told(all.as_slice(), ends) {
        Ok(all)
    } else {
        everyone(alloc, ends)
    }
}

// Each procedure with an end or a call.
fn everyone(alloc: Global, ends: &[End]) -> Result<Items<u64>, Memory>
    ensures { IfOk result (λ ending. are_told ending ends.now ≡ true) }
{
    let mut all = Items::new(alloc);
    for end in ends {
        push(&mut all, end.procedure)?;
    }
    Ok(all)
}

fn add_untold(all: &mut Items<u64>, ends: &[End]) -> Result<(), Memory> {
    for end in ends {
        if !is_told(all.as_slice(), end) {
            push(all, end.procedure)?;
        }
    }
    Ok(())
}

fn push(all: &mut Items<u64>, p: u64) -> Result<(), Memory>
    ensures { OnOk result (all.new ≡ all.old ++ p ∷ []) }
{
    match all.push(p) {
        Ok(()) => Ok(()),
        Err(_) => Err(Memory),
    }
}

/// Each procedure with an end is among these.
fn are_told(ending: &[u64], ends: &[End]) -> bool
    ensures { result ≡ are_told ending.now ends.now }
{
    for end in ends {
        if !is_told(ending, end) {
            return false;
        }
    }
    true
}

fn is_told(ending: &[u64], end: &End) -> bool
    ensures { result ≡ is_told ending.now end.now }
{
    !lives(ending, end.way) || is_among(ending, end.procedure)
}

fn lives(ending: &[u64], way: Way) -> bool
    ensures { result ≡ lives ending.now way }
{
    match way {
        Way::Into(q) => is_among(ending, q),
        _ => true,
    }
}

pub(crate) fn is_live(ending: &[u64], p: u64, end: &End) -> bool
    ensures { result ≡ is_live ending.now p end.now }
{
    end.procedure == p && lives(ending, end.way)
}

pub(crate) fn has_end(ending: &[u64], p: u64, ends: &[End]) -> bool
    ensures { result ≡ has_end ending.now p ends.now }
{
    for end in ends {
        if is_live(ending, p, end) {
            return true;
        }
    }
    false
}
