//! Watches that see a run.

ghost use Rattle.std.specs.Prelude.{◌≡◌, [], ◌∷◌, All, IsTrue, ◌↔◌, IfOk};
ghost use Rattle.std.specs.List.{AllZip};
ghost use Rattle.run_watch.specs.Moments.{moment_of};
ghost use Rattle.run_watch.specs.Quiet.{IsKnown};
ghost use Rattle.run_watch.specs.Runs.{HasSeen, sight_of};

use crate::context::{Found, WatchCtx};
use crate::watch::Watch;
use rv_step::StepRec;
use sqlite_items::Items;
use std::alloc::{AllocError, Global};

/// Shows all watches, in order, a record with its moment.
pub(crate) fn show(watches: &mut [Box<dyn Watch>], ctx: &WatchCtx, rec: &StepRec)
    ensures { AllZip (λ old new. HasSeen (sight_of (moment_of ctx.now) rec.now ∷ []) (kind_of old) (state old) (kind_of new) (state new)) watches.old watches.new }
{
    for watch in watches.iter_mut() {
        show_one(watch, ctx, rec);
    }
}

// Shows a watch a record with its moment.
fn show_one(watch: &mut Box<dyn Watch>, ctx: &WatchCtx, rec: &StepRec)
    ensures { HasSeen (sight_of (moment_of ctx.now) rec.now ∷ []) (kind_of watch.old) (state watch.old) (kind_of watch.new) (state watch.new) }
{
    watch.see(ctx, rec);
}

/// All watches are of the kinds 1 to 4, of which it is told what they find.
pub(crate) fn are_known(watches: &[Box<dyn Watch>]) -> bool
    ensures { IsTrue result ↔ All (λ watch. IsKnown (kind_of watch)) watches.now }
{
    for watch in watches {
        if !is_known(watch) {
            return false;
        }
    }
    true
}

// A watch is of one of these kinds.
fn is_known(watch: &Box<dyn Watch>) -> bool
    ensures { IsTrue result ↔ IsKnown (kind_of watch.now) }
{
    let kind = watch.kind();
    1 <= kind && kind <= 4
}

/// What each watch found, in order.
pub(crate) fn findings(
    alloc: Global,
    watches: &[Box<dyn Watch>],
) -> Result<Items<Option<Found>>, AllocError>
    ensures { IfOk result (λ found. AllZip (λ watch f. f ≡ state watch) watches.now found) }
{
    let mut found = Items::new(alloc);
    for watch in watches {
        found.push(found_of(watch))?;
    }
    Ok(found)
}

// What a watch found.
fn found_of(watch: &Box<dyn Watch>) -> Option<Found>
    ensures { result ≡ state watch.now }
{
    watch.found()
}
