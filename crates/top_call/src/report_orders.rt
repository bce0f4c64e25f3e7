//! What the orders over a file and a report get. They read the file, and the report where the file is accepted.

ghost use Rattle.std.specs.Prelude.{◌≡◌, ◌≤◌, ℕ, List, None, map, replicate, IfOk, IfSome, IsOk, MatchResult};
ghost use Rattle.outside.specs.Counts.{HasRisen};
ghost use Rattle.run_answers.specs.Answers.{four_kinds};
ghost use Rattle.call_ends.specs.Calls.{IsAnswerOver, IsOverBoth};
ghost use Rattle.call_ends.specs.Replies.{AnswersWith};
ghost use Rattle.order_answers.specs.FileRefusals.{IsRefused};
ghost use Rattle.order_answers.specs.ReportAnswers.{IsUnread, IsRun, IsUpgrade};
ghost use Rattle.top_call.specs.Answers.{IsReadFault};
ghost use Rattle.top_call.specs.Inputs.{AreInputs, HasCode};

use crate::four_watches::in_order;
use call_ends::{Reply, file_bytes, reply_of, report_bytes};
use elf_image::Image;
use flow_points::Points;
use order_answers::{answer_to_run, answer_to_upgrade, code_of, refused};
use outside::Files;
use run_watch::{CodeWatch, RelationWatch, ReturnWatch, StoreWatch, Watch};
use std::alloc::{AllocError, Global};

/// What `run FILE REPORT --steps N [--regs R]` gets, for these registers. Without watches, they are made for it.
pub fn reply_to_run<F: Files>(
    alloc: Global,
    files: &mut F,
    file: &str,
    report: &str,
    steps: u32,
    start: [u64; 32],
    watches: Option<Vec<Box<dyn Watch>>>,
) -> Reply
    requires steps { steps ≤ 1000000000 }
    requires kinds { IfSome watches (λ w. map (λ watch. kind_of watch) w.items ≡ four_kinds) }
    requires fresh { IfSome watches (λ w. map (λ watch. state watch) w.items ≡ replicate 4 None) }
    ensures { AnswersWith (IsOverBoth (F.contents files.old file.now) (F.contents files.old report.now) (IsRun start steps))
        (IsReadFault (F.contents files.old file.now) (HasRisen (F.faults files.old file.now) (F.faults files.new file.now))
        (HasRisen (F.faults files.old report.now) (F.faults files.new report.now))) result }
{
    if let Some(watches) = watches {
        return reply_under(alloc, files, file, report, steps, start, watches);
    }
    match watched(alloc, files, file, report, steps, start) {
        Ok(reply) => reply,
        Err(_) => Reply::OutOfMemory,
    }
}

// The same under watches that are made for it, where there is memory for them.
fn watched<F: Files>(
    alloc: Global,
    files: &mut F,
    file: &str,
    report: &str,
    steps: u32,
    start: [u64; 32],
) -> Result<Reply, AllocError>
    requires { steps ≤ 1000000000 }
    ensures { IfOk result (AnswersWith (IsOverBoth (F.contents files.old file.now) (F.contents files.old report.now) (IsRun start steps))
        (IsReadFault (F.contents files.old file.now) (HasRisen (F.faults files.old file.now) (F.faults files.new file.now))
        (HasRisen (F.faults files.old report.now) (F.faults files.new report.now)))) }
{
    let relations = Box::new(alloc, RelationWatch::new())?;
    let stores = Box::new(alloc, StoreWatch::new())?;
    let returns = Box::new(alloc, ReturnWatch::new())?;
    let code = Box::new(alloc, CodeWatch::new())?;
    let watches = in_order(alloc, relations, stores, returns, code)?;
    Ok(reply_under(alloc, files, file, report, steps, start, watches))
}

// The same under these watches.
fn reply_under<F: Files>(
    alloc: Global,
    files: &mut F,
    file: &str,
    report: &str,
    steps: u32,
    start: [u64; 32],
    watches: Vec<Box<dyn Watch>>,
) -> Reply
    requires steps { steps ≤ 1000000000 }
    requires kinds { map (λ watch. kind_of watch) watches.items ≡ four_kinds }
    requires fresh { map (λ watch. state watch) watches.items ≡ replicate 4 None }
    ensures { AnswersWith (IsOverBoth (F.contents files.old file.now) (F.contents files.old report.now) (IsRun start steps))
        (IsReadFault (F.contents files.old file.now) (HasRisen (F.faults files.old file.now) (F.faults files.new file.now))
        (HasRisen (F.faults files.old report.now) (F.faults files.new report.now))) result }
{
    match read_inputs(alloc, files, file, report) {
        Ok(inputs) => reply_of(answer_to_run(
            alloc,
            &inputs.image,
            &inputs.points,
            inputs.report.as_slice(),
            steps,
            start,
            watches,
        )),
        Err(reply) => reply,
    }
}

/// What `upgrade FILE REPORT` gets.
pub fn reply_to_upgrade<F: Files>(alloc: Global, files: &mut F, file: &str, report: &str) -> Reply
    ensures { AnswersWith (IsOverBoth (F.contents files.old file.now) (F.contents files.old report.now) IsUpgrade)
        (IsReadFault (F.contents files.old file.now) (HasRisen (F.faults files.old file.now) (F.faults files.new file.now))
        (HasRisen (F.faults files.old report.now) (F.faults files.new report.now))) result }
{
    match read_inputs(alloc, files, file, report) {
        Ok(inputs) => reply_of(answer_to_upgrade(alloc, &inputs.points, inputs.report.as_slice())),
        Err(reply) => reply,
    }
}

// The image and the points of a file, and the bytes of a report.
#[derive(Drop)]
struct Inputs {
    image: Image,
    points: Points,
    report: Vec<u8>,
}

// Reads a file and a report; or gives the reply to what can't be read or is refused.
fn read_inputs<F: Files>(
    alloc: Global,
    files: &mut F,
    file: &str,
    report: &str,
) -> Result<Inputs, Reply>
    ensures { MatchResult result
        (λ i. AreInputs (F.contents files.old file.now) (F.contents files.old report.now) i.image i.points i.report.items)
        (AnswersWith (IsOverBoth (F.contents files.old file.now) (F.contents files.old report.now) IsUnread)
        (IsReadFault (F.contents files.old file.now) (HasRisen (F.faults files.old file.now) (F.faults files.new file.now))
        (HasRisen (F.faults files.old report.now) (F.faults files.new report.now)))) }
{
    let (image, points) = match read_code(alloc, files, file) {
        Ok(code) => code,
        Err(reply) => return Err(reply),
    };
    match report_bytes(alloc, files, report) {
        Ok(report) => Ok(Inputs {
            image,
            points,
            report,
        }),
        Err(reply) => Err(reply),
    }
}

// The image and the points of a file.
fn read_code<F: Files>(alloc: Global, files: &mut F, file: &str) -> Result<(Image, Points), Reply>
    ensures read { MatchResult result (λ code. HasCode (F.contents files.old file.now) code.0 code.1)
        (AnswersWith (IsAnswerOver (F.contents files.old file.now) IsRefused)
        (HasRisen (F.faults files.old file.now) (F.faults files.new file.now))) }
    ensures contents_stay { (other : List ℕ) → F.contents files.new other ≡ F.contents files.old other }
    ensures counts_stay { IsOk result → (other : List ℕ) → F.faults files.new other ≡ F.faults files.old other }
{
    match file_bytes(alloc, files, file) {
        Ok(bytes) => match code_of(alloc, &bytes) {
            Ok(code) => Ok(code),
            Err(refusal) => Err(reply_of(refused(alloc, &bytes, refusal))),
        },
        Err(reply) => Err(reply),
    }
}
