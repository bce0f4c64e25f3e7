//! The activations of a run.

ghost use Rattle.std.specs.Prelude.{◌≡◌, ◌+◌, ◌*◌, ◌≤◌, ◌<◌, [], is_some, length, IfOk, OnOk, MatchBool, if◌then◌else◌};
ghost use Rattle.frame_offsets.specs.Frames.{offset_at};
ghost use Rattle.run_watch.specs.Activations.{saved_words, relied_at, begun, called, slots_from, Turned, Leaves};
ghost use Rattle.run_watch.specs.Marks.{AreMarked};

use crate::activation::Activation;
use crate::marks::SlotMarks;
use crate::stacks::Stack;
use flow_points::Flow;
use frame_offsets::Offsets;
use report_text::Name;
use rv_step::StepRec;
use sqlite_items::Items;
use std::alloc::{AllocError, Global};

/// The register sp.
const SP: usize = 2;

/// The activation of the entry procedure alone, at a start with these registers.
pub(crate) fn begun(alloc: Global, entry: u64, regs: &[u64; 32]) -> Stack
    ensures earlier { result.earlier ≡ [] }
    ensures last { result.last ≡ begun entry regs.now }
{
    Stack {
        earlier: Items::new(alloc),
        last: Activation {
            procedure: entry,
            entry_sp: regs[SP],
            return_to: None,
            saved: saved_words(regs),
            relied: 0,
        },
    }
}

/// What a made step at a point does to the activations; false where it is a return that doesn't go to the last one's return
/// address, or one of the first activation. The slots of the names in earlier activations stay marked.
pub(crate) fn turn(
    stack: &mut Stack,
    marks: &mut SlotMarks,
    names: &[Name],
    flow: Flow,
    offsets: &Offsets,
    point: u32,
    rec: &StepRec,
) -> Result<bool, AllocError>
    requires point { 32 * point + 32 ≤ length offsets.now }
    requires few { length stack.old.earlier + 1 ≤ 65536 }
    requires marked { AreMarked marks.old (slots_from names.now 1 stack.old.earlier) }
    ensures turned { IfOk result (λ on. MatchBool on (Turned flow point offsets.now rec.now.regs rec.now.next stack.old stack.new) (Leaves flow rec.now.next stack.old)) }
    ensures marked { OnOk result (AreMarked marks.new (slots_from names.now 1 stack.new.earlier)) }
{
    match flow {
        Flow::Call { target, next } => {
            let relied = relied_at(offsets, point);
            marks.mark_slots(names, stack.earlier.len() + 1, &stack.last)?;
            stack.earlier.push(stack.last)?;
            stack.last = called(target, next, relied, &rec.regs);
            Ok(true)
        }
        Flow::Return => Ok(close(stack, marks, names, rec.next)),
        _ => Ok(true),
    }
}

// A return: it closes the last activation, where it goes to its return address, and that isn't the first.
fn close(stack: &mut Stack, marks: &mut SlotMarks, names: &[Name], next: u64) -> bool
    requires { AreMarked marks.old (slots_from names.now 1 stack.old.earlier) }
    ensures marked { AreMarked marks.new (slots_from names.now 1 stack.new.earlier) }
    ensures closed { MatchBool result (Turned Flow.Return 0 [] [] next stack.old stack.new) (Leaves Flow.Return next stack.old) }
{
    if stack.last.return_to != Some(next) {
        return false;
    }
    let depth = stack.earlier.len();
    match stack.earlier.pop() {
        Some(caller) => {
            marks.unmark_slots(names, depth, &caller);
            stack.last = caller;
            true
        }
        None => false,
    }
}

// The activation that a call opens.
fn called(target: u64, next: u64, relied: u16, regs: &[u64; 32]) -> Activation
    ensures { result ≡ called target next relied regs.now }
{
    Activation {
        procedure: target,
        entry_sp: regs[SP],
        return_to: Some(next),
        saved: saved_words(regs),
        relied,
    }
}

// The words of s0 to s11.
fn saved_words(regs: &[u64; 32]) -> [u64; 12]
    ensures { result ≡ saved_words regs.now }
{
    [
        regs[8], regs[9], regs[18], regs[19], regs[20], regs[21], regs[22], regs[23], regs[24],
        regs[25], regs[26], regs[27],
    ]
}

// The saved registers that have an offset at a point, bit i for s of i.
fn relied_at(offsets: &Offsets, point: u32) -> u16
    requires { 32 * point + 32 ≤ length offsets.now }
    ensures { result ≡ relied_at offsets.now point }
{
    let high = bit(offsets, point, 24)
        + 2 * (bit(offsets, point, 25)
            + 2 * (bit(offsets, point, 26) + 2 * bit(offsets, point, 27)));
    let middle = bit(offsets, point, 20)
        + 2 * (bit(offsets, point, 21)
            + 2 * (bit(offsets, point, 22) + 2 * (bit(offsets, point, 23) + 2 * high)));
    bit(offsets, point, 8)
        + 2 * (bit(offsets, point, 9)
            + 2 * (bit(offsets, point, 18) + 2 * (bit(offsets, point, 19) + 2 * middle)))
}

// 1 where a register has an offset at a point, else 0.
fn bit(offsets: &Offsets, point: u32, register: u8) -> u16
    requires point { 32 * point + 32 ≤ length offsets.now }
    requires register { register < 32 }
    ensures bit { result ≡ (if is_some (offset_at offsets.now point register) then 1 else 0) }
    ensures small { result ≤ 1 }
{
    u16::from(offsets.at(point, register).is_some())
}
