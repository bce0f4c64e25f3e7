//! One step of the search: where the flow goes on from a point.

use crate::drafts::{Draft, Drafts, Known, add_caller, push, wait};
use crate::index::{add_last, find};
use crate::join::{cut, joined};
use crate::limits::{Limits, NoTable, kept};
use crate::owe::{End, ends};
use elf_image::Image;
use entry_tables::{CONVENTION, Guess, Told, flow_at, is_silent, line_at, returned};
use entry_values::{Flow, State, copied, start};
use std::alloc::Global;

/// What the search is given.
#[derive(Clone, Copy)]
pub(crate) struct Given<'a> {
    pub(crate) image: &'a Image,
    pub(crate) guesses: &'a [Guess],
    pub(crate) silent: &'a [u64],
    pub(crate) limits: Limits,
}

/// The procedure, with its entry: its number.
pub(crate) fn add_procedure(
    alloc: Global,
    limits: Limits,
    all: &mut Drafts,
    q: u64,
) -> Result<usize, NoTable> {
    if let Some(at) = find(&all.index, &all.drafts, q, q) {
        return Ok(all.drafts[at].owner);
    }
    if all.known.len() >= limits.procedures {
        return Err(NoTable::Procedures);
    }
    let owner = all.known.len();
    let told = Told {
        procedure: q,
        returns: false,
        keeps: [true; 32],
    };
    push(
        &mut all.known,
        Known {
            told,
            rows: 0,
            last: 0,
        },
    )?;
    add_point(alloc, limits, all, owner, q, q, &start(alloc))?;
    Ok(owner)
}

// A new point, which waits for its turn.
fn add_point(
    alloc: Global,
    limits: Limits,
    all: &mut Drafts,
    owner: usize,
    procedure: u64,
    address: u64,
    u: &State,
) -> Result<(), NoTable> {
    if all.drafts.len() >= limits.rows {
        return Err(NoTable::Rows);
    }
    let state = kept(cut(alloc, u, limits.slots))?;
    let draft = Draft {
        procedure,
        owner,
        address,
        marked: false,
        waits: false,
        calls: false,
        state,
    };
    let last = all.drafts.len();
    push(&mut all.drafts, draft)?;
    add_last(alloc, &mut all.index, &all.drafts)?;
    if owner < all.known.len() && all.known[owner].rows < limits.rows {
        all.known[owner].rows += 1;
    }
    wait(all, last)
}

// Whether the procedure has as many rows as it may.
fn is_full(all: &Drafts, limits: Limits, owner: usize) -> bool {
    owner < all.known.len() && all.known[owner].rows >= limits.own_rows
}

// The flow of the point goes on at b, with this state. Where that is a row too many, the point isn't followed.
fn reach(
    alloc: Global,
    limits: Limits,
    all: &mut Drafts,
    at: usize,
    b: u64,
    u: &State,
) -> Result<(), NoTable> {
    if at >= all.drafts.len() {
        return Ok(());
    }
    let (procedure, owner) = (all.drafts[at].procedure, all.drafts[at].owner);
    match find(&all.index, &all.drafts, procedure, b) {
        Some(to) => meet(alloc, all, to, u),
        None if is_full(all, limits, owner) => {
            all.drafts[at].marked = true;
            wait(all, at)
        }
        None => add_point(alloc, limits, all, owner, procedure, b, u),
    }
}

// The state is one of those with which the point is reached.
fn meet(alloc: Global, all: &mut Drafts, to: usize, u: &State) -> Result<(), NoTable> {
    if to >= all.drafts.len() {
        return Ok(());
    }
    let here = all.drafts[to].address;
    let both = kept(joined(alloc, &all.drafts[to].state, u, here))?;
    if let Some(state) = both {
        all.drafts[to].state = state;
        wait(all, to)?;
    }
    Ok(())
}

fn reach_each(
    alloc: Global,
    limits: Limits,
    all: &mut Drafts,
    at: usize,
    targets: &[u64],
    u: &State,
) -> Result<(), NoTable> {
    for b in targets {
        reach(alloc, limits, all, at, *b, u)?;
    }
    Ok(())
}

fn call(
    alloc: Global,
    given: Given,
    all: &mut Drafts,
    at: usize,
    q: u64,
    next: u64,
) -> Result<(), NoTable> {
    let owner = add_procedure(alloc, given.limits, all, q)?;
    add_caller(all, at, owner)?;
    if at >= all.drafts.len() || owner >= all.known.len() {
        return Ok(());
    }
    let told = all.known[owner].told;
    let a = all.drafts[at].address;
    if !told.returns || is_silent(given.silent, a) {
        return Ok(());
    }
    let behind = kept(returned(alloc, told.keeps, &all.drafts[at].state, a, next))?;
    reach(alloc, given.limits, all, at, next, &behind)
}

fn come_back(
    alloc: Global,
    limits: Limits,
    all: &mut Drafts,
    at: usize,
    next: u64,
) -> Result<(), NoTable> {
    if at >= all.drafts.len() {
        return Ok(());
    }
    let draft = &all.drafts[at];
    let behind = kept(returned(alloc, CONVENTION, &draft.state, draft.address, next))?;
    reach(alloc, limits, all, at, next, &behind)
}

fn go_by_table(
    alloc: Global,
    limits: Limits,
    all: &mut Drafts,
    at: usize,
    targets: &[u64],
) -> Result<(), NoTable> {
    if at >= all.drafts.len() {
        return Ok(());
    }
    let s = kept(copied(alloc, &all.drafts[at].state))?;
    reach_each(alloc, limits, all, at, targets, &s)
}

/// The point has its turn.
pub(crate) fn follow(
    alloc: Global,
    given: Given,
    all: &mut Drafts,
    at: usize,
) -> Result<(), NoTable> {
    if at >= all.drafts.len() {
        return Ok(());
    }
    all.drafts[at].waits = false;
    let limits = given.limits;
    match flow_of(alloc, given, &all.drafts[at])? {
        Flow::On(targets, u) => reach_each(alloc, limits, all, at, targets.as_slice(), &u),
        Flow::ByTable(targets) => go_by_table(alloc, limits, all, at, targets.as_slice()),
        Flow::CallTo(q, next) => call(alloc, given, all, at, q, next),
        Flow::Foreign(next) => come_back(alloc, limits, all, at, next),
        Flow::Past(_, next, u) => reach(alloc, limits, all, at, next, &u),
        Flow::Return => ends(all, at, End::Return),
        Flow::TailOut => ends(all, at, End::TailOut),
        Flow::Stuck => ends(all, at, End::Stuck),
        Flow::Leave | Flow::Halt => Ok(()),
    }
}

fn flow_of(alloc: Global, given: Given, draft: &Draft) -> Result<Flow, NoTable> {
    let a = draft.address;
    let line = line_at(given.image, a);
    kept(flow_at(
        alloc,
        given.image,
        given.guesses,
        a,
        line,
        draft.marked,
        &draft.state,
    ))
}
