//! What the ends of a procedure leave of its summary.

use crate::drafts::{Draft, Drafts, wait_callers};
use crate::limits::NoTable;
use entry_tables::{Told, by_convention, is_itself};
use entry_values::Value;

/// Where a frame ends: by a return; by a tail call of code that isn't known; or at a point that isn't followed.
#[derive(Clone, Copy, PartialEq, Eq)]
pub(crate) enum End {
    Return,
    TailOut,
    Stuck,
}

fn is_kept(end: End, r: usize, v: Value) -> bool {
    match end {
        End::Return => is_itself(r, v),
        End::TailOut => by_convention(r) && is_itself(r, v),
        End::Stuck => by_convention(r),
    }
}

// The summary where the procedure has this end, too, and whether it is another one.
fn told_by(told: Told, end: End, values: &[Value; 32]) -> (Told, bool) {
    let mut keeps = told.keeps;
    let mut changed = !told.returns;
    for r in 0..32usize {
        if keeps[r] && !is_kept(end, r, values[r]) {
            keeps[r] = false;
            changed = true;
        }
    }
    let told = Told {
        procedure: told.procedure,
        returns: true,
        keeps,
    };
    (told, changed)
}

/// The procedure of a point ends there.
pub(crate) fn ends(all: &mut Drafts, at: usize, end: End) -> Result<(), NoTable> {
    if at >= all.drafts.len() {
        return Ok(());
    }
    let owner = all.drafts[at].owner;
    if owner >= all.known.len() {
        return Ok(());
    }
    let (told, changed) = told_by(all.known[owner].told, end, values_of(&all.drafts[at]));
    if changed {
        all.known[owner].told = told;
        wait_callers(all, owner)?;
    }
    Ok(())
}

fn values_of(draft: &Draft) -> &[Value; 32] {
    &draft.state.values
}
