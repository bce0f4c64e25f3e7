//! What the search keeps of points and procedures.

use crate::limits::NoTable;
use entry_tables::Told;
use entry_values::State;
use std::alloc::Global;

/// A point: its procedure, by address and by number; whether it waits for its turn, and whether its callee
/// knows of it.
#[derive(Drop)]
pub(crate) struct Draft {
    pub(crate) procedure: u64,
    pub(crate) owner: usize,
    pub(crate) address: u64,
    pub(crate) marked: bool,
    pub(crate) waits: bool,
    pub(crate) calls: bool,
    pub(crate) state: State,
}

/// A procedure: how many rows it has, and the last of its callers, one more than its number, 0 if none.
#[derive(Clone, Copy)]
pub(crate) struct Known {
    pub(crate) told: Told,
    pub(crate) rows: usize,
    pub(crate) last: usize,
}

/// A point that calls, and the caller before it, as in `Known`.
#[derive(Clone, Copy)]
pub(crate) struct Caller {
    pub(crate) at: usize,
    pub(crate) before: usize,
}

/// All that the search keeps: points in the order in which they were found, an index of them, procedures,
/// callers, and the points that wait.
#[derive(Drop)]
pub(crate) struct Drafts {
    pub(crate) drafts: Vec<Draft>,
    pub(crate) index: Vec<usize>,
    pub(crate) known: Vec<Known>,
    pub(crate) callers: Vec<Caller>,
    pub(crate) waiting: Vec<usize>,
}

pub(crate) fn no_drafts(alloc: Global) -> Drafts {
    Drafts {
        drafts: Vec::new(alloc),
        index: Vec::new(alloc),
        known: Vec::new(alloc),
        callers: Vec::new(alloc),
        waiting: Vec::new(alloc),
    }
}

/// One more in a list.
pub(crate) fn push<T: Drop>(items: &mut Vec<T>, item: T) -> Result<(), NoTable> {
    match items.push(item) {
        Ok(()) => Ok(()),
        Err(_) => Err(NoTable::Memory),
    }
}

/// The point waits for its turn.
pub(crate) fn wait(all: &mut Drafts, at: usize) -> Result<(), NoTable> {
    if at < all.drafts.len() && !all.drafts[at].waits {
        all.drafts[at].waits = true;
        push(&mut all.waiting, at)?;
    }
    Ok(())
}

/// The callers of a procedure wait for their turn.
pub(crate) fn wait_callers(all: &mut Drafts, owner: usize) -> Result<(), NoTable> {
    if owner >= all.known.len() {
        return Ok(());
    }
    let mut caller = all.known[owner].last;
    let mut left = all.callers.len();
    while left > 0 && 0 < caller && caller <= all.callers.len() {
        let Caller { at, before } = all.callers[caller - 1];
        wait(all, at)?;
        caller = before;
        left -= 1;
    }
    Ok(())
}

/// The point is a caller of the procedure.
pub(crate) fn add_caller(all: &mut Drafts, at: usize, owner: usize) -> Result<(), NoTable> {
    if at >= all.drafts.len() || owner >= all.known.len() || all.drafts[at].calls {
        return Ok(());
    }
    let before = all.known[owner].last;
    push(&mut all.callers, Caller { at, before })?;
    all.drafts[at].calls = true;
    all.known[owner].last = all.callers.len();
    Ok(())
}
