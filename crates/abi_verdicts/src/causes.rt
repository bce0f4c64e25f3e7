//! What is told of a register.

ghost use Rattle.std.specs.Prelude.{◌≡◌, IfOk};
ghost use Rattle.entry_tables.specs.Tables.{Summary};
ghost use Rattle.entry_tables.specs.Settling.{AreLined, table_of, summary_of, listed};
ghost use Rattle.abi_verdicts.specs.Verdicts.{cause, lost_why, value_cause, returned_cause, end_cause, own_cause, first_cause, cause_of, goes_on, is_whole, is_kept, by_fault, verdict_of};

use crate::found::fault_of;
use crate::live::{has_end, is_live};
use crate::verdicts::{Cause, Verdict, Why};
use crate::ways::{End, Way};
use elf_image::Image;
use entry_tables::{Rows, Told};
use entry_values::{Kind, Memory, Value};
use entry_walks::{told_at, value_in};
use std::alloc::Global;

/// The verdict of a register of a procedure, by the ends of the table, the procedures that have one, and a
/// walk that is to show a fault.
pub fn verdict_of(
    alloc: Global,
    image: &Image,
    rows: &Rows,
    ends: &[End],
    ending: &[u64],
    p: u64,
    r: u8,
    walk: &[u64],
) -> Result<Verdict, Memory>
    requires { AreLined image.now rows.now.points }
    ensures { IfOk result (λ verdict. verdict ≡ verdict_of (table_of image.now rows.now) ends.now ending.now p r walk.now) }
{
    if is_kept(told_at(rows.procedures.as_slice(), p), p, r, ends) {
        return Ok(Verdict::Kept);
    }
    if !has_end(ending, p, ends) {
        return Ok(Verdict::Never);
    }
    match fault_of(alloc, image, rows, p, r, walk)? {
        Some(fault) => Ok(Verdict::Clobbered(fault)),
        None => Ok(Verdict::Unknown(cause_of(p, first_cause(ending, p, r, ends)))),
    }
}

fn is_kept(told: Option<Told>, p: u64, r: u8, ends: &[End]) -> bool
    ensures { result ≡ is_kept (summary_of told) p r ends.now }
{
    match told {
        Some(told) => told.returns && (r == 1 || is_listed(&told.keeps, r)) && is_whole(p, ends),
        None => false,
    }
}

fn is_whole(p: u64, ends: &[End]) -> bool
    ensures { result ≡ is_whole p ends.now }
{
    for end in ends {
        if end.procedure == p && !goes_on(end.way) {
            return false;
        }
    }
    true
}

fn goes_on(way: Way) -> bool
    ensures { result ≡ goes_on way }
{
    matches!(way, Way::Home | Way::Out | Way::Into(_))
}

fn first_cause(ending: &[u64], p: u64, r: u8, ends: &[End]) -> Option<Cause>
    ensures { result ≡ first_cause ending.now p r ends.now }
{
    for end in ends {
        if let Some(cause) = own_cause(ending, p, r, end) {
            return Some(cause);
        }
    }
    None
}

fn own_cause(ending: &[u64], p: u64, r: u8, end: &End) -> Option<Cause>
    ensures { result ≡ own_cause ending.now p r end.now }
{
    if is_live(ending, p, end) {
        end_cause(r, end.address, value_in(&end.values, r), end.way)
    } else {
        None
    }
}

fn is_listed(keeps: &[bool], r: u8) -> bool
    ensures { result ≡ listed keeps.now r }
{
    match keeps.get(usize::from(r)) {
        Some(keeps) => *keeps,
        None => false,
    }
}

fn end_cause(r: u8, here: u64, v: Value, way: Way) -> Option<Cause>
    ensures { result ≡ end_cause r here v way }
{
    match way {
        Way::Home | Way::Out => returned_cause(r, here, v),
        Way::Away => Some(cause(here, Why::Leaves)),
        Way::Jump => Some(cause(here, Why::AtJump)),
        Way::NoWord => Some(cause(here, Why::AtNoWord)),
        Way::Limit => Some(cause(here, Why::AtLimit)),
        Way::Into(q) => Some(cause(here, Why::Called(q))),
    }
}

fn cause(address: u64, why: Why) -> Cause
    ensures { result ≡ cause address why }
{
    Cause { address, why }
}

fn returned_cause(r: u8, here: u64, v: Value) -> Option<Cause>
    ensures { result ≡ returned_cause r here v }
{
    if r == 1 {
        None
    } else {
        value_cause(r, here, v)
    }
}

fn value_cause(r: u8, here: u64, v: Value) -> Option<Cause>
    ensures { result ≡ value_cause r here v }
{
    match v {
        Value::Is(b, k) if b == r && k == 0 => None,
        Value::Is(_, _) => Some(cause(here, Why::Met)),
        Value::Any(a, kind) => Some(cause(a, lost_why(r, kind))),
    }
}

fn lost_why(r: u8, kind: Kind) -> Why
    ensures { result ≡ lost_why r kind }
{
    match kind {
        Kind::Callee => Why::BehindCall,
        Kind::Computed if r == 2 => Why::LostSp,
        _ => Why::Met,
    }
}

fn cause_of(p: u64, found: Option<Cause>) -> Cause
    ensures { result ≡ cause_of p found }
{
    match found {
        Some(found) => found,
        None => cause(p, Why::Met),
    }
}
