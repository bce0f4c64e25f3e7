//! Steps at which watches of the four kinds find nothing, made without records.

ghost use Rattle.std.specs.Prelude.{◌≡◌, ◌+◌, ◌≤◌, ◌<◌, ℕ, None, IsTrue, length, slice_get, option_copied, option_map, IfOk, OnOk, IfSome, IfNone, IsSomeAnd, false};
ghost use Rattle.flow_points.specs.Walks.{point};
ghost use Rattle.rv_decode.specs.Instructions.{IsWellFormed};
ghost use Rattle.frame_offsets.specs.Frames.{AreOffsetsOf};
ghost use Rattle.rv_step.specs.Machines.{hart_of};
ghost use Rattle.run_watch.specs.Activations.{slots_from};
ghost use Rattle.run_watch.specs.Marks.{AreMarked};
ghost use Rattle.run_watch.specs.Runs.{scene_of, steps_of, IsAtPoint};
ghost use Rattle.run_watch.specs.Moments.{slots_in};
ghost use Rattle.run_watch.specs.Quiet.{IsCalm, IsQuietStep, Quietly, IsStraight, IsLeft, stored_to, told_detail};

use crate::code_bytes::CodeBytes;
use crate::context::LiveSlots;
use crate::live_slots::Allowed;
use crate::marks::SlotMarks;
use crate::moment::{is_unreached, rows_in, told_near};
use crate::products::first_unkept;
use crate::stacks::Stack;
use crate::values::seen_words;
use affine_lift::slot_writes;
use flow_points::{CodePoint, Flow, Points};
use frame_offsets::Offsets;
use report_text::{PointRows, Report};
use rv_decode::Instr;
use rv_step::{Machine, Memory, plus};

/// Goes on as long as nothing stops the run, no step is a call or a return, and it can be told before a step that none of the
/// kinds 1 to 4 finds anything in its record.
pub(crate) fn go_quietly(
    points: &Points,
    offsets: &Offsets,
    report: &Report,
    code: &CodeBytes,
    limit: u64,
    machine: &mut Machine,
    stack: &Stack,
    marks: &SlotMarks,
) -> Result<(), Memory>
    requires offsets { AreOffsetsOf points.now offsets.now }
    requires few { length stack.now.earlier + 1 ≤ 65536 }
    requires limit { limit ≤ 1000000000 }
    requires within { steps_of (record { machine = machine.old; stack = stack.now }) ≤ limit }
    requires marked { AreMarked marks.now (slots_from report.now.tracked.names 1 stack.now.earlier) }
    ensures { OnOk result (Quietly (scene_of points.now offsets.now report.now code.now) limit (record { machine = machine.old; stack = stack.now }) (record { machine = machine.new; stack = stack.now })) }
{
    let mut last = 0;
    loop {
        match step_quietly(
            points, offsets, report, code, limit, machine, stack, marks, last,
        )? {
            Some(at) => last = at,
            None => return Ok(()),
        }
    }
}

// Makes such a step, and tells the number of its point; None where there is none. The point of the step before is told.
fn step_quietly(
    points: &Points,
    offsets: &Offsets,
    report: &Report,
    code: &CodeBytes,
    limit: u64,
    machine: &mut Machine,
    stack: &Stack,
    marks: &SlotMarks,
    last: u32,
) -> Result<Option<u32>, Memory>
    requires offsets { AreOffsetsOf points.now offsets.now }
    requires few { length stack.now.earlier + 1 ≤ 65536 }
    requires limit { limit ≤ 1000000000 }
    requires within { steps_of (record { machine = machine.old; stack = stack.now }) ≤ limit }
    requires marked { AreMarked marks.now (slots_from report.now.tracked.names 1 stack.now.earlier) }
    ensures made { IfOk result (λ made. IfSome made (λ at. IsQuietStep (scene_of points.now offsets.now report.now code.now) limit (record { machine = machine.old; stack = stack.now }) (record { machine = machine.new; stack = stack.now }))) }
    ensures stays { IfOk result (λ made. made ≡ None → machine.new ≡ machine.old) }
{
    if machine.made() == limit {
        return Ok(None);
    }
    let Some(at) = find_near(points, last, stack.procedure(), machine.pc()) else {
        return Ok(None);
    };
    let code_point = points.code(at);
    let Some((fetched, instr)) = machine.own() else {
        return Ok(None);
    };
    if fetched.word != code_point.word
        || may_turn(code_point.flow)
        || !is_calm(
            points,
            offsets,
            report,
            code,
            stack,
            marks,
            machine,
            at,
            &code_point,
            instr,
        )
    {
        return Ok(None);
    }
    machine.advance(fetched, instr)?;
    Ok(Some(at))
}

// The point at an address in a procedure, mostly the one behind the last.
fn find_near(points: &Points, last: u32, procedure: u64, address: u64) -> Option<u32>
    ensures { IfSome result (λ i. IsSomeAnd (slice_get points.now.points i) (λ c. c.point ≡ point procedure address)) }
{
    let next = last.saturating_add(1);
    if next < points.count() {
        let point = points.point(next);
        if point.proc_entry == procedure && point.address == address {
            return Some(next);
        }
    }
    points.find(procedure, address)
}

// The flow may change the activations.
fn may_turn(flow: Flow) -> bool
    ensures { result ≡ false → IsStraight flow }
{
    matches!(flow, Flow::Call { .. } | Flow::Return)
}

// Kind 1 finds nothing at the point, and where the instruction stores, the store changes nothing that is watched.
fn is_calm(
    points: &Points,
    offsets: &Offsets,
    report: &Report,
    code: &CodeBytes,
    stack: &Stack,
    marks: &SlotMarks,
    machine: &Machine,
    at: u32,
    code_point: &CodePoint,
    instr: Instr,
) -> bool
    requires is_at { IsAtPoint (scene_of points.now offsets.now report.now code.now) (record { machine = machine.now; stack = stack.now }) at code_point.now }
    requires offsets { AreOffsetsOf points.now offsets.now }
    requires few { length stack.now.earlier + 1 ≤ 65536 }
    requires marked { AreMarked marks.now (slots_from report.now.tracked.names 1 stack.now.earlier) }
    requires well_formed { IsWellFormed instr }
    ensures { IsTrue result → IsCalm (scene_of points.now offsets.now report.now code.now) (record { machine = machine.now; stack = stack.now }) at code_point.now instr }
{
    let names = report.tracked.names.as_slice();
    let words = seen_words(machine, machine.registers(), names, &stack.last);
    let slots = LiveSlots {
        names,
        earlier: stack.earlier.as_slice(),
        last: &stack.last,
        marks,
    };
    let allowed = Allowed {
        depth: stack.earlier.len() as u32 + 1,
        writable: slot_writes(points, offsets, &report.tracked, at),
    };
    are_kept(
        told_near(report.points.as_slice(), at, code_point.point),
        &words,
    ) && are_spared(&slots, allowed, code, stored_to(machine, instr))
}

// The point isn't called unreached, and words break none of its rows.
fn are_kept(told: Option<&PointRows>, words: &[u64; 17]) -> bool
    ensures { IsTrue result → told_detail (option_map (λ t. t.state) (option_copied told.entry)) words.now ≡ None }
{
    !is_unreached(told) && first_unkept(rows_in(told), words).is_none()
}

// The address to which an instruction stores, if it does.
fn stored_to(machine: &Machine, instr: Instr) -> Option<u64>
    requires { IsWellFormed instr }
    ensures { result ≡ stored_to instr (hart_of machine.now) }
{
    match instr {
        Instr::Store { rs1, imm, .. } => Some(plus(machine.register(rs1), imm)),
        _ => None,
    }
}

// No store at this address changes a byte of a slot that may not change, or of an instruction.
fn are_spared(slots: &LiveSlots, allowed: Allowed, code: &CodeBytes, address: Option<u64>) -> bool
    ensures { IsTrue result → IfSome address (IsLeft (slots_in slots.now) allowed.depth allowed.writable code.now) }
{
    match address {
        Some(address) => is_spared(slots, allowed, code, address),
        None => true,
    }
}

fn is_spared(slots: &LiveSlots, allowed: Allowed, code: &CodeBytes, address: u64) -> bool
    ensures { IsTrue result → IsLeft (slots_in slots.now) allowed.depth allowed.writable code.now address }
{
    !code.is_near(address) && !slots.is_near(address) && !slots.last_may_change(allowed, address)
}
