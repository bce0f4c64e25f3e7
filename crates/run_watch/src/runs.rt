//! Whole runs.

ghost use Rattle.std.specs.Prelude.{◌≡◌, ◌+◌, ◌≤◌, length, List, IfOk, OnOk};
ghost use Rattle.std.specs.List.{AllZip};
ghost use Rattle.frame_offsets.specs.Frames.{AreOffsetsOf};
ghost use Rattle.run_watch.specs.Activations.{slots_from};
ghost use Rattle.run_watch.specs.Marks.{AreMarked};
ghost use Rattle.run_watch.specs.Quiet.{Quietly};
ghost use Rattle.run_watch.specs.Runs.{scene_of, steps_of, Sight, HasSeen, IsWatched};

use crate::code_bytes::CodeBytes;
use crate::marks::SlotMarks;
use crate::quiet::go_quietly;
use crate::shows::are_known;
use crate::stacks::Stack;
use crate::stops::RunStop;
use crate::turns::turn;
use crate::watch::Watch;
use flow_points::Points;
use frame_offsets::Offsets;
use report_text::Report;
use rv_step::{Machine, Memory};

/// Goes on with a run until it stops, and says why.
pub(crate) fn go_on(
    points: &Points,
    offsets: &Offsets,
    report: &Report,
    code: &CodeBytes,
    limit: u64,
    machine: &mut Machine,
    stack: &mut Stack,
    marks: &mut SlotMarks,
    watches: &mut [Box<dyn Watch>],
) -> Result<RunStop, Memory>
    requires offsets { AreOffsetsOf points.now offsets.now }
    requires few { length stack.old.earlier + 1 ≤ 65536 }
    requires limit { limit ≤ 1000000000 }
    requires within { steps_of (record { machine = machine.old; stack = stack.old }) ≤ limit }
    requires marked { AreMarked marks.old (slots_from report.now.tracked.names 1 stack.old.earlier) }
    ensures { IfOk result (λ stop. (seen : List Sight) × IsWatched (scene_of points.now offsets.now report.now code.now) limit (record { machine = machine.old; stack = stack.old }) seen (steps_of (record { machine = machine.new; stack = stack.new })) stop × AllZip (λ old new. HasSeen seen (kind_of old) (state old) (kind_of new) (state new)) watches.old watches.new) }
{
    loop {
        go_unseen(
            points, offsets, report, code, limit, machine, stack, marks, watches,
        )?;
        if let Some(stop) = turn(
            points, offsets, report, code, limit, machine, stack, marks, watches,
        )? {
            return Ok(stop);
        }
    }
}

// Goes on by steps of which no watch needs to see the records, if all are of the four kinds.
fn go_unseen(
    points: &Points,
    offsets: &Offsets,
    report: &Report,
    code: &CodeBytes,
    limit: u64,
    machine: &mut Machine,
    stack: &Stack,
    marks: &SlotMarks,
    watches: &[Box<dyn Watch>],
) -> Result<(), Memory>
    requires offsets { AreOffsetsOf points.now offsets.now }
    requires few { length stack.now.earlier + 1 ≤ 65536 }
    requires limit { limit ≤ 1000000000 }
    requires within { steps_of (record { machine = machine.old; stack = stack.now }) ≤ limit }
    requires marked { AreMarked marks.now (slots_from report.now.tracked.names 1 stack.now.earlier) }
    ensures { OnOk result (Quietly (scene_of points.now offsets.now report.now code.now) limit (record { machine = machine.old; stack = stack.now }) (record { machine = machine.new; stack = stack.now })) }
{
    if are_known(watches) {
        go_quietly(points, offsets, report, code, limit, machine, stack, marks)
    } else {
        Ok(())
    }
}
