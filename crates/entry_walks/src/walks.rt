//! Walks.

ghost use Rattle.std.specs.Prelude.{◌≡◌, IfOk};
ghost use Rattle.entry_tables.specs.Settling.{AreLined, table_of};
ghost use Rattle.entry_runs.specs.Walks.{flow_at};
ghost use Rattle.entry_walks.specs.Walks.{is_among, onto, gone, same_value, stepped, step, state_if, entered, walk_of};
ghost use Rattle.entry_values.specs.declared.flow.Flow.TheVariants.{CallTo};

use crate::places::{place_at, told_at, value_in};
use crate::stops::Stop;
use elf_image::Image;
use entry_tables::{CONVENTION, Rows, flow_at, is_silent, returned};
use entry_values::{Flow, Memory, State, Value, copied, start};
use std::alloc::Global;

/// Where the walk from the entry of a procedure by these addresses comes to, with the point at which the
/// register was changed last; none, if one of the steps is none of the flow.
pub fn walked(
    alloc: Global,
    image: &Image,
    rows: &Rows,
    p: u64,
    r: u8,
    walk: &[u64],
) -> Result<Option<Stop>, Memory>
    requires { AreLined image.now rows.now.points }
    ensures { IfOk result (λ stop. stop ≡ walk_of (table_of image.now rows.now) p r walk.now) }
{
    let mut stop = entered(alloc, p);
    for b in walk {
        match step(alloc, image, rows, p, r, &stop, *b)? {
            Some(after) => stop = after,
            None => return Ok(None),
        }
    }
    Ok(Some(stop))
}

fn entered(alloc: Global, p: u64) -> Stop
    ensures { result ≡ entered p }
{
    Stop {
        address: p,
        state: start(alloc),
        changed: p,
    }
}

fn step(
    alloc: Global,
    image: &Image,
    rows: &Rows,
    p: u64,
    r: u8,
    stop: &Stop,
    b: u64,
) -> Result<Option<Stop>, Memory>
    requires { AreLined image.now rows.now.points }
    ensures { IfOk result (λ after. after ≡ step (table_of image.now rows.now) p r stop.now b) }
{
    match gone(alloc, image, rows, p, stop.address, &stop.state, b)? {
        Some(u) => Ok(Some(stepped(r, stop, b, u))),
        None => Ok(None),
    }
}

fn stepped(r: u8, stop: &Stop, b: u64, u: State) -> Stop
    ensures { result ≡ stepped r stop.now b u }
{
    let same = same_value(value_in(&stop.state.values, r), value_in(&u.values, r));
    Stop {
        address: b,
        state: u,
        changed: if same { stop.changed } else { stop.address },
    }
}

fn same_value(v: Value, w: Value) -> bool
    ensures { result ≡ same_value v w }
{
    match (v, w) {
        (Value::Is(b, k), Value::Is(c, l)) => b == c && k == l,
        (Value::Any(a, _), Value::Any(c, _)) => a == c,
        _ => false,
    }
}

// The state at b, where a walk that is at a, with the state s, goes on to b.
fn gone(
    alloc: Global,
    image: &Image,
    rows: &Rows,
    p: u64,
    a: u64,
    s: &State,
    b: u64,
) -> Result<Option<State>, Memory>
    requires { AreLined image.now rows.now.points }
    ensures { IfOk result (λ u. u ≡ gone (table_of image.now rows.now) p a s.now b) }
{
    let flow = flow_here(alloc, image, rows, p, a, s)?;
    onto(alloc, image, rows, s, a, b, &flow)
}

/// The flow of a walk at an address, with its state there.
pub fn flow_here(
    alloc: Global,
    image: &Image,
    rows: &Rows,
    p: u64,
    a: u64,
    s: &State,
) -> Result<Flow, Memory>
    requires { AreLined image.now rows.now.points }
    ensures { IfOk result (λ f. f ≡ flow_at (table_of image.now rows.now) p a s.now) }
{
    let place = place_at(rows.points.as_slice(), p, a);
    let guesses = rows.guesses.as_slice();
    flow_at(alloc, image, guesses, a, place.line, place.marked, s)
}

/// The state at b, where this flow goes on to b from a, with the state s there.
pub fn onto(
    alloc: Global,
    image: &Image,
    rows: &Rows,
    s: &State,
    a: u64,
    b: u64,
    flow: &Flow,
) -> Result<Option<State>, Memory>
    ensures { IfOk result (λ u. u ≡ onto (table_of image.now rows.now) s.now a b flow.now) }
{
    match flow {
        Flow::On(targets, u) => copy_if(alloc, is_among(targets.as_slice(), b), u),
        Flow::ByTable(targets) => copy_if(alloc, is_among(targets.as_slice(), b), s),
        Flow::Past(_, next, u) => copy_if(alloc, *next == b, u),
        Flow::CallTo(q, next) => behind_call(alloc, image, rows, s, a, b, *q, *next),
        Flow::Foreign(next) if *next == b => Ok(Some(returned(alloc, CONVENTION, s, a, *next)?)),
        _ => Ok(None),
    }
}

fn copy_if(alloc: Global, goes: bool, u: &State) -> Result<Option<State>, Memory>
    ensures { IfOk result (λ t. t ≡ state_if goes u.now) }
{
    if goes {
        Ok(Some(copied(alloc, u)?))
    } else {
        Ok(None)
    }
}

fn behind_call(
    alloc: Global,
    image: &Image,
    rows: &Rows,
    s: &State,
    a: u64,
    b: u64,
    q: u64,
    next: u64,
) -> Result<Option<State>, Memory>
    ensures { IfOk result (λ u. u ≡ onto (table_of image.now rows.now) s.now a b (CallTo q next)) }
{
    let _ = image;
    match told_at(rows.procedures.as_slice(), q) {
        Some(told) if told.returns && !is_silent(rows.silent.as_slice(), a) && next == b => {
            Ok(Some(returned(alloc, told.keeps, s, a, next)?))
        }
        _ => Ok(None),
    }
}

/// The address is one of these.
pub fn is_among(targets: &[u64], b: u64) -> bool
    ensures { result ≡ is_among targets.now b }
{
    for target in targets {
        if *target == b {
            return true;
        }
    }
    false
}
