//! Runs of small files under the four watches, and the step at which each first finds something: runs that keep the
//! discipline to their ends, and runs that keep it exactly up to a step.

ghost use Rattle.std.specs.Prelude.{◌≤◌};
ghost use Rattle.flow_points.specs.PointLists.{ArePointsOf};
ghost use Rattle.frame_offsets.specs.Frames.{AreOffsetsOf};

use elf_image::{Image, read_image};
use elf_write::file_of_words;
use flow_points::{Points, recover};
use frame_offsets::{Offsets, offsets};
use report_read::read_report;
use report_text::Report;
use run_watch::{
    CodeWatch, Found, RelationWatch, ReturnWatch, RunRefusal, RunStop, RunVerdict, StoreWatch,
    Watch, WatchCtx, check_run,
};
use rv_step::StepRec;
use std::alloc::{AllocError, Global};

/// Kind 9: counts the records that it sees, and keeps how many live slots there were at most.
#[derive(Drop)]
struct CountWatch {
    alloc: Global,
    count: u64,
    slots: u64,
}

impl Watch for CountWatch {
    ghost use Rattle.std.specs.Prelude.{Some};

    ghost kind_of = { λ w. 9 };

    ghost state = { λ w. Some (record { index = w.count; address = 0; detail = w.slots }) };

    fn kind(&self) -> u8 {
        9
    }

    fn see(&mut self, ctx: &WatchCtx, _rec: &StepRec) {
        self.count = self.count.saturating_add(1);
        if let Ok(slots) = ctx.slots(self.alloc) {
            self.slots = self.slots.max(slots.len() as u64);
        }
    }

    fn found(&self) -> Option<Found> {
        Some(Found {
            index: self.count,
            address: 0,
            detail: self.slots,
        })
    }
}

/// Which watches see a run: none, the four, or the four and then one that counts records.
#[derive(Clone, Copy, PartialEq, Eq)]
pub(crate) enum Watches {
    None,
    Four,
    Five,
}

/// What a run is given: a report's text, sp, a0 and a1, at most how many steps, and its watches.
#[derive(Clone, Copy)]
pub(crate) struct Given<'a> {
    pub(crate) report: &'a str,
    pub(crate) sp: u64,
    pub(crate) a0: u64,
    pub(crate) a1: u64,
    pub(crate) steps: u64,
    pub(crate) which: Watches,
}

/// A run of at most so many steps with sp at 0x20000 and a0 at 3, under these watches, against a report that tells of
/// no point.
fn run_under(
    alloc: Global,
    words: &[u32],
    list: &str,
    steps: u64,
    which: Watches,
) -> Option<RunVerdict>
    requires steps { steps ≤ 1000000000 }
{
    match format!(in alloc; "affine-report 1\ntrack {list}\nend\n") {
        Ok(report) => {
            let given = Given {
                report: report.as_str(),
                sp: 0x2_0000,
                a0: 3,
                a1: 0,
                steps,
                which,
            };
            run_given(alloc, words, &given)
        }
        Err(_) => None,
    }
}

/// A run with what is given, where it isn't refused.
pub(crate) fn run_given(alloc: Global, words: &[u32], given: &Given<'_>) -> Option<RunVerdict>
    requires steps { given.now.steps ≤ 1000000000 }
{
    match answer(alloc, words, given) {
        Some(Ok(verdict)) => Some(verdict),
        _ => None,
    }
}

/// What the check of a run with what is given answers.
pub(crate) fn answer(
    alloc: Global,
    words: &[u32],
    given: &Given<'_>,
) -> Option<Result<RunVerdict, RunRefusal>>
    requires steps { given.now.steps ≤ 1000000000 }
{
    match file_of_words(alloc, words) {
        Ok(file) => over_file(alloc, &file, given),
        Err(_) => None,
    }
}

fn over_file(
    alloc: Global,
    file: &[u8],
    given: &Given<'_>,
) -> Option<Result<RunVerdict, RunRefusal>>
    requires steps { given.now.steps ≤ 1000000000 }
{
    match read_image(alloc, file) {
        Ok(image) => over_image(alloc, &image, given),
        Err(_) => None,
    }
}

fn over_image(
    alloc: Global,
    image: &Image,
    given: &Given<'_>,
) -> Option<Result<RunVerdict, RunRefusal>>
    requires steps { given.now.steps ≤ 1000000000 }
{
    match recover(alloc, image) {
        Ok(points) => over_points(alloc, image, &points, given),
        Err(_) => None,
    }
}

fn over_points(
    alloc: Global,
    image: &Image,
    points: &Points,
    given: &Given<'_>,
) -> Option<Result<RunVerdict, RunRefusal>>
    requires steps { given.now.steps ≤ 1000000000 }
    requires points { ArePointsOf image.now points.now }
{
    match read_report(alloc, given.report.as_bytes()) {
        Ok(report) => over_report(alloc, image, points, &report, given),
        Err(_) => None,
    }
}

fn over_report(
    alloc: Global,
    image: &Image,
    points: &Points,
    report: &Report,
    given: &Given<'_>,
) -> Option<Result<RunVerdict, RunRefusal>>
    requires steps { given.now.steps ≤ 1000000000 }
    requires points { ArePointsOf image.now points.now }
{
    match offsets(alloc, points) {
        Ok(offsets) => watched(alloc, image, points, &offsets, report, given).ok(),
        Err(_) => None,
    }
}

/// Memory may be wanting for the watches. They are given away: whatever is answered, none of them is here afterwards.
fn watched(
    alloc: Global,
    image: &Image,
    points: &Points,
    offsets: &Offsets,
    report: &Report,
    given: &Given<'_>,
) -> Result<Result<RunVerdict, RunRefusal>, AllocError>
    requires steps { given.now.steps ≤ 1000000000 }
    requires points { ArePointsOf image.now points.now }
    requires offsets { AreOffsetsOf points.now offsets.now }
{
    let mut regs = [0; 32];
    regs[2] = given.sp;
    regs[10] = given.a0;
    regs[11] = given.a1;
    let mut watches: Vec<Box<dyn Watch>> = Vec::new(alloc);
    if given.which != Watches::None {
        watches.push(Box::new(alloc, RelationWatch::new())?)?;
        watches.push(Box::new(alloc, StoreWatch::new())?)?;
        watches.push(Box::new(alloc, ReturnWatch::new())?)?;
        watches.push(Box::new(alloc, CodeWatch::new())?)?;
    }
    if given.which == Watches::Five {
        let watch = CountWatch {
            alloc,
            count: 0,
            slots: 0,
        };
        watches.push(Box::new(alloc, watch)?)?;
    }
    Ok(check_run(
        alloc,
        image,
        points,
        offsets,
        report,
        regs,
        given.steps,
        watches,
    ))
}

/// At which record a watch found something.
fn index_of(found: &Option<Found>) -> Option<u64> {
    match found {
        Some(found) => Some(found.index),
        None => None,
    }
}

/// Whether a verdict has so many steps, this stop, and for each watch that found something the index of its record.
pub(crate) fn tells(
    verdict: &RunVerdict,
    steps: u64,
    stop: RunStop,
    indices: &[Option<u64>],
) -> bool {
    let found = verdict.found.as_slice();
    for (one, index) in found.iter().zip(indices) {
        if index_of(one) != *index {
            return false;
        }
    }
    found.len() == indices.len() && verdict.steps == steps && verdict.stop == stop
}

/// Whether a run under the four watches ends so.
fn ends(
    alloc: Global,
    words: &[u32],
    list: &str,
    steps: u64,
    stop: RunStop,
    indices: [Option<u64>; 4],
) -> bool {
    match run_under(alloc, words, list, 1000, Watches::Four) {
        Some(verdict) => tells(&verdict, steps, stop, &indices),
        None => false,
    }
}

/// Whether a run of at most so many steps ends so, and the watch behind the four saw so many records.
fn is_seen(alloc: Global, words: &[u32], most: u64, steps: u64, stop: RunStop, records: u64) -> bool
    requires most { most ≤ 1000000000 }
{
    match run_under(alloc, words, "a0", most, Watches::Five) {
        Some(verdict) => {
            verdict.steps == steps
                && verdict.stop == stop
                && fifth_of(&verdict) == Some((records, 0))
        }
        None => false,
    }
}

/// Whether a run under no watches ends so, with no findings.
fn is_unseen(alloc: Global, words: &[u32], steps: u64, stop: RunStop) -> bool {
    match run_under(alloc, words, "a0", 1000, Watches::None) {
        Some(verdict) => tells(&verdict, steps, stop, &[]),
        None => false,
    }
}

/// How many records the watch behind the four saw, and how many live slots at most.
fn fifth_of(verdict: &RunVerdict) -> Option<(u64, u64)> {
    match verdict.found.as_slice() {
        [_, _, _, _, Some(found)] => Some((found.index, found.detail)),
        _ => None,
    }
}

/// Whether the watch behind the four saw so many records of a run, and so many live slots at most.
fn has_slots(alloc: Global, words: &[u32], list: &str, records: u64, slots: u64) -> bool {
    match run_under(alloc, words, list, 1000, Watches::Five) {
        Some(verdict) => fifth_of(&verdict) == Some((records, slots)),
        None => false,
    }
}

/// Start code that sets sp and calls main by a pair; main has a frame, in which it saves s0 and ra.
#[test]
fn a_program_to_its_end(rt: HostRuntime) {
    let words = [
        0x00001117, 0xf8810113, 0x00000097, 0x00c080e7, 0x00100073, 0xfe010113, 0x00813823,
        0x00113c23, 0x00050413, 0x018000ef, 0x00850533, 0x01813083, 0x01013403, 0x02010113,
        0x00008067, 0x00251513, 0x00008067,
    ];
    let list = "sp,ra,s0,a0,0x1008c:-8,0x1008c:-16";
    assert!(rt;
        ends(
            rt.alloc(),
            &words,
            list,
            16,
            RunStop::Break(0x1_0088),
            [None; 4]
        )
    );
}

/// A procedure that saves ra in its frame calls itself, three deep, and each activation returns.
#[test]
fn a_recursion_that_returns(rt: HostRuntime) {
    let words = [
        0x00300513, 0x008000ef, 0x00100073, 0xff010113, 0x00113423, 0xfff50513, 0x00050463,
        0xff1ff0ef, 0x00813083, 0x01010113, 0x00008067,
    ];
    let list = "sp,ra,0x10084:-8";
    assert!(rt;
        ends(
            rt.alloc(),
            &words,
            list,
            25,
            RunStop::Break(0x1_0080),
            [None; 4]
        )
    );
    assert!(rt; has_slots(rt.alloc(), &words, list, 26, 3));
}

/// A procedure writes 0 over its caller's saved ra, at step 4, so that the caller returns to 0, at step 8.
#[test]
fn a_store_into_the_callers_slot(rt: HostRuntime) {
    let words = [
        0x008000ef, 0x00100073, 0xff010113, 0x00113423, 0x010000ef, 0x00813083, 0x01010113,
        0x00008067, 0x00013423, 0x00008067,
    ];
    let list = "ra,0x10080:-8";
    assert!(rt;
        ends(
            rt.alloc(),
            &words,
            list,
            9,
            RunStop::Left(0),
            [None, Some(4), Some(8), None]
        )
    );
}

/// A procedure returns 4 bytes behind its return address.
#[test]
fn a_return_elsewhere(rt: HostRuntime) {
    let words = [0x00c000ef, 0x00100073, 0x00100073, 0x00408093, 0x00008067];
    let list = "ra";
    assert!(rt;
        ends(
            rt.alloc(),
            &words,
            list,
            3,
            RunStop::Left(0x1_0080),
            [None, None, Some(2), None]
        )
    );
}

/// Code writes over its next instruction.
#[test]
fn a_store_into_code(rt: HostRuntime) {
    let words = [0x00000517, 0x00052423, 0x00100073];
    let list = "a0";
    assert!(rt;
        ends(
            rt.alloc(),
            &words,
            list,
            2,
            RunStop::Left(0x1_0080),
            [None, None, None, Some(1)]
        )
    );
}

/// A procedure that addresses its frame through s0 calls one that returns with 0 in s0, at step 7.
#[test]
fn a_frame_pointer_that_is_lost(rt: HostRuntime) {
    let words = [
        0x008000ef, 0x00100073, 0xff010113, 0x00113423, 0x00813023, 0x01010413, 0x014000ef,
        0xff843083, 0xff043403, 0x01010113, 0x00008067, 0x00000413, 0x00008067,
    ];
    let list = "s0";
    assert!(rt;
        ends(
            rt.alloc(),
            &words,
            list,
            12,
            RunStop::Left(0),
            [None, None, Some(7), None]
        )
    );
}

/// Seven steps and an EBREAK: a record of each step, and one of where the run stops.
#[test]
fn records_to_an_ebreak(rt: HostRuntime) {
    let words = [
        0x00150513, 0x00150513, 0x00150513, 0x00150513, 0x00150513, 0x00150513, 0x00150513,
        0x00100073,
    ];
    assert!(rt; is_seen(rt.alloc(), &words, 1000, 7, RunStop::Break(0x1_0094), 8));
}

/// The seventh step is a return of the first activation, behind which nothing is seen.
#[test]
fn records_to_a_return_elsewhere(rt: HostRuntime) {
    let words = [
        0x00150513, 0x00150513, 0x00150513, 0x00150513, 0x00150513, 0x00150513, 0x00008067,
    ];
    assert!(rt; is_seen(rt.alloc(), &words, 1000, 7, RunStop::Left(0), 7));
}

/// A run of no step is seen where it stops.
#[test]
fn a_record_of_no_step(rt: HostRuntime) {
    assert!(rt;
        is_seen(
            rt.alloc(),
            &[0x00150513, 0x00100073],
            0,
            0,
            RunStop::Budget,
            1
        )
    );
}

/// With no watches nothing is found.
#[test]
fn no_watches(rt: HostRuntime) {
    let words = [0x00150513, 0x00100073];
    assert!(rt; is_unseen(rt.alloc(), &words, 1, RunStop::Break(0x1_007c)));
}
