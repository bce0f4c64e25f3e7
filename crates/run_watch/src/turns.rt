//! One turn of a run.

ghost use Rattle.std.specs.Prelude.{◌≡◌, ◌≢◌, ◌+◌, ◌≤◌, ◌<◌, ◌↔◌, Some, IsTrue, length, List, option_map, IfOk, OnOk};
ghost use Rattle.std.specs.List.{AllZip};
ghost use Rattle.frame_offsets.specs.Frames.{AreOffsetsOf};
ghost use Rattle.rv_step.specs.Harts.{fetched};
ghost use Rattle.rv_step.specs.Machines.{hart_of};
ghost use Rattle.run_watch.specs.Activations.{slots_from};
ghost use Rattle.run_watch.specs.Marks.{AreMarked};
ghost use Rattle.run_watch.specs.Moments.{moment_of};
ghost use Rattle.run_watch.specs.Runs.{scene_of, steps_of, Sight, Turn, HasSeen, IsCall, run_stop};
ghost use Rattle.run_watch.specs.Turns.{Stepped, Tried};
ghost use Rattle.rv_step.specs.declared.records.Stop.{Stop};

use crate::code_bytes::CodeBytes;
use crate::context::WatchCtx;
use crate::marks::SlotMarks;
use crate::moment::context;
use crate::outcomes::Outcome;
use crate::shows::show;
use crate::stack::turn as turn_stack;
use crate::stacks::Stack;
use crate::stops::RunStop;
use crate::watch::Watch;
use flow_points::{Flow, Points};
use frame_offsets::Offsets;
use report_text::Report;
use rv_step::{Machine, Memory, StepRec, Stop};

/// How many activations there may be.
const MOST_ACTIVATIONS: usize = 65536;

/// One turn of a run: the checks and stops in their order, a step of the machine, which all watches see with its moment,
/// and what the step does to the activations. Where the run stops it says why.
pub(crate) fn turn(
    points: &Points,
    offsets: &Offsets,
    report: &Report,
    code: &CodeBytes,
    limit: u64,
    machine: &mut Machine,
    stack: &mut Stack,
    marks: &mut SlotMarks,
    watches: &mut [Box<dyn Watch>],
) -> Result<Option<RunStop>, Memory>
    requires offsets { AreOffsetsOf points.now offsets.now }
    requires few { length stack.old.earlier + 1 ≤ 65536 }
    requires limit { limit ≤ 1000000000 }
    requires within { steps_of (record { machine = machine.old; stack = stack.old }) ≤ limit }
    requires marked { AreMarked marks.old (slots_from report.now.tracked.names 1 stack.old.earlier) }
    ensures marked { OnOk result (AreMarked marks.new (slots_from report.now.tracked.names 1 stack.new.earlier)) }
    ensures turned { IfOk result (λ stop. (seen : List Sight) × Turn (scene_of points.now offsets.now report.now code.now) limit (record { machine = machine.old; stack = stack.old }) (record { machine = machine.new; stack = stack.new }) seen stop × AllZip (λ old new. HasSeen seen (kind_of old) (state old) (kind_of new) (state new)) watches.old watches.new) }
{
    match tried(
        points, offsets, report, code, limit, machine, stack, marks, watches,
    )? {
        Outcome::Stopped(stop) => Ok(Some(stop)),
        Outcome::Made(at, flow, rec) => {
            let names = report.tracked.names.as_slice();
            match turn_stack(stack, marks, names, flow, offsets, at, &rec) {
                Ok(true) => Ok(None),
                Ok(false) => Ok(Some(RunStop::Left(rec.next))),
                Err(_) => Err(Memory),
            }
        }
    }
}

// The checks and stops, and the step of the machine.
fn tried(
    points: &Points,
    offsets: &Offsets,
    report: &Report,
    code: &CodeBytes,
    limit: u64,
    machine: &mut Machine,
    stack: &Stack,
    marks: &SlotMarks,
    watches: &mut [Box<dyn Watch>],
) -> Result<Outcome, Memory>
    requires offsets { AreOffsetsOf points.now offsets.now }
    requires few { length stack.now.earlier + 1 ≤ 65536 }
    requires limit { limit ≤ 1000000000 }
    requires within { steps_of (record { machine = machine.old; stack = stack.now }) ≤ limit }
    requires marked { AreMarked marks.now (slots_from report.now.tracked.names 1 stack.now.earlier) }
    ensures { IfOk result (λ outcome. (seen : List Sight) × Tried (scene_of points.now offsets.now report.now code.now) limit (record { machine = machine.old; stack = stack.now }) machine.new seen outcome × AllZip (λ old new. HasSeen seen (kind_of old) (state old) (kind_of new) (state new)) watches.old watches.new) }
{
    let here = machine.closing();
    let Some(at) = points.find(stack.procedure(), here.pc) else {
        return Ok(Outcome::Stopped(stop_off_points(here.index, here.pc, limit)));
    };
    let code_point = points.code(at);
    let ctx = context(
        points,
        offsets,
        report,
        code,
        stack,
        marks,
        machine,
        &here,
        at,
        &code_point,
    );
    if here.index == limit {
        show(watches, &ctx, &here);
        return Ok(Outcome::Stopped(RunStop::Budget));
    }
    if !has_word(machine, code_point.word) {
        return Ok(Outcome::Stopped(RunStop::Left(here.pc)));
    }
    if is_too_deep(code_point.flow, stack.earlier_count()) {
        show(watches, &ctx, &here);
        return Ok(Outcome::Stopped(RunStop::Depth(MOST_ACTIVATIONS as u32)));
    }
    step(machine, watches, &ctx, &here, at, code_point.flow)
}

// How a run stops that is at no point of the file, after so many steps.
fn stop_off_points(steps: u64, pc: u64, limit: u64) -> RunStop
    ensures spent { steps ≡ limit → result ≡ RunStop.Budget }
    ensures lost { steps ≢ limit → result ≡ RunStop.Left pc }
{
    if steps == limit {
        RunStop::Budget
    } else {
        RunStop::Left(pc)
    }
}

// A step of the machine at a point, or the stop there.
fn step(
    machine: &mut Machine,
    watches: &mut [Box<dyn Watch>],
    ctx: &WatchCtx,
    here: &StepRec,
    at: u32,
    flow: Flow,
) -> Result<Outcome, Memory>
    ensures { IfOk result (λ outcome. (seen : List Sight) × Stepped machine.old machine.new (moment_of ctx.now) here.now at flow seen outcome × AllZip (λ old new. HasSeen seen (kind_of old) (state old) (kind_of new) (state new)) watches.old watches.new) }
{
    match machine.step() {
        Ok(rec) => {
            show(watches, ctx, &rec);
            Ok(Outcome::Made(at, flow, rec))
        }
        Err(why) => match run_stop(why)? {
            Some(stop) => {
                show(watches, ctx, here);
                Ok(Outcome::Stopped(stop))
            }
            None => Ok(Outcome::Stopped(RunStop::Left(here.pc))),
        },
    }
}

// The word in memory at pc is this one.
fn has_word(machine: &Machine, word: u32) -> bool
    ensures { IsTrue result ↔ (option_map (λ at. at.word) (fetched (hart_of machine.now)) ≡ Some word) }
{
    machine.fetched() == Some(word)
}

// The point is a call, and with so many earlier activations there are as many as there may be.
fn is_too_deep(flow: Flow, earlier: usize) -> bool
    requires { earlier + 1 ≤ 65536 }
    ensures { IsTrue result ↔ (IsCall flow × (earlier + 1 ≡ 65536)) }
{
    matches!(flow, Flow::Call { .. }) && earlier + 1 == MOST_ACTIVATIONS
}

// How a run stops where the machine stops so. Nothing else stops it at a point whose word is the file's, but want of memory.
fn run_stop(why: Stop) -> Result<Option<RunStop>, Memory>
    ensures { IfOk result (λ stop. (why ≢ Stop.Memory) × (stop ≡ run_stop why)) }
{
    match why {
        Stop::Exit(a0) => Ok(Some(RunStop::Exit(a0))),
        Stop::Break(at) => Ok(Some(RunStop::Break(at))),
        Stop::Ecall(a7) => Ok(Some(RunStop::Ecall(a7))),
        Stop::Outside(_) | Stop::Illegal(_) => Ok(None),
        Stop::Memory => Err(Memory),
    }
}
