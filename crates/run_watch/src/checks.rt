//! The check of a run.

ghost use Rattle.std.specs.Prelude.{◌≡◌, ◌↔◌, ◌+◌, ◌≤◌, ℕ, Some, Err, length, List, IfOk};
ghost use Rattle.std.specs.List.{AllZip};
ghost use Rattle.flow_points.specs.PointLists.{ArePointsOf};
ghost use Rattle.frame_offsets.specs.Frames.{AreOffsetsOf};
ghost use Rattle.run_watch.specs.Runs.{Sight, HasSeen, IsRunOf, IsVerdict};
ghost use Rattle.report_places.specs.Strangers.{IsStranger};

use crate::instructions::instructions as instructions_of;
use crate::marks::SlotMarks;
use crate::runs::go_on;
use crate::shows::findings;
use crate::stack::begun;
use crate::verdicts::{RunRefusal, RunVerdict};
use crate::watch::Watch;
use elf_image::Image;
use flow_points::Points;
use frame_offsets::Offsets;
use report_places::stranger;
use report_text::Report;
use rv_step::{Machine, Memory};
use std::alloc::Global;

/// Runs an image from its entry, with these registers and 0 in all memory outside it, for at most so many steps. All watches
/// see each step with its moment, and one closing record where the run stops at a point. Where all watches are of the kinds 1
/// to 4 they are spared steps at which these find nothing. The answer has the steps that were made, why the run stopped, and
/// what each watch found.
pub fn check_run(
    alloc: Global,
    image: &Image,
    points: &Points,
    offsets: &Offsets,
    report: &Report,
    start: [u64; 32],
    steps: u64,
    watches: Vec<Box<dyn Watch>>,
) -> Result<RunVerdict, RunRefusal>
    requires steps { steps ≤ 1000000000 }
    requires points { ArePointsOf image.now points.now }
    requires offsets { AreOffsetsOf points.now offsets.now }
    ensures refused { (address : ℕ) → (result ≡ Err (RunRefusal.NotAPoint address)) ↔ IsStranger points.now report.now.tracked.names report.now.points (Some address) }
    ensures verdict { IfOk result (λ v. (seen : List Sight) × IsRunOf image.now points.now offsets.now report.now start steps seen v.steps v.stop × AllZip (λ watch found. IsVerdict (kind_of watch) (state watch) seen found) watches.items v.found) }
{
    if let Some(address) = stranger(points, report) {
        return Err(RunRefusal::NotAPoint(address));
    }
    let mut watches = watches;
    match watched(
        alloc,
        image,
        points,
        offsets,
        report,
        start,
        steps,
        &mut watches,
    ) {
        Ok(verdict) => Ok(verdict),
        Err(_) => Err(RunRefusal::Memory),
    }
}

// The run of a report whose points are the file's.
fn watched(
    alloc: Global,
    image: &Image,
    points: &Points,
    offsets: &Offsets,
    report: &Report,
    start: [u64; 32],
    limit: u64,
    watches: &mut [Box<dyn Watch>],
) -> Result<RunVerdict, Memory>
    requires limit { limit ≤ 1000000000 }
    requires points { ArePointsOf image.now points.now }
    requires offsets { AreOffsetsOf points.now offsets.now }
    ensures { IfOk result (λ v. (seen : List Sight) × IsRunOf image.now points.now offsets.now report.now start limit seen v.steps v.stop × AllZip (λ watch found. IsVerdict (kind_of watch) (state watch) seen found) watches.old v.found) }
{
    let Ok(code) = instructions_of(alloc, points) else {
        return Err(Memory);
    };
    let mut machine = Machine::start(alloc, image, start)?;
    let here = machine.closing();
    let mut stack = begun(alloc, points.entry(), &here.regs);
    let mut marks = SlotMarks::new(alloc);
    let stop = go_on(
        points,
        offsets,
        report,
        &code,
        limit,
        &mut machine,
        &mut stack,
        &mut marks,
        watches,
    )?;
    let Ok(found) = findings(alloc, watches) else {
        return Err(Memory);
    };
    Ok(RunVerdict {
        steps: machine.closing().index,
        stop,
        found,
    })
}
