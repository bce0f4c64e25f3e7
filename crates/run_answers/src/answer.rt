//! The answer of the order `run`.

ghost use Rattle.std.specs.Prelude.{◌≡◌, ◌≤◌, IfOk, map, replicate, None};
ghost use Rattle.flow_points.specs.PointLists.{ArePointsOf};
ghost use Rattle.frame_offsets.specs.Frames.{AreOffsetsOf};
ghost use Rattle.run_answers.specs.Answers.{four_kinds, status_of, IsReadIn, IsRunAnswer};

use crate::lines::{report_line, stranger_line};
use elf_image::Image;
use flow_points::Points;
use frame_offsets::Offsets;
use report_read::read_report;
use report_text::Report;
use run_watch::{RunRefusal, RunVerdict, Watch, check_run};
use std::alloc::{AllocError, Global};
use verdict_text::{has_found, write_verdict};

/// The status and the text of the order `run` for an image and a report's bytes: a run from these registers, for at most so
/// many steps, under watches of the four kinds.
pub fn run_answer(
    alloc: Global,
    image: &Image,
    points: &Points,
    offsets: &Offsets,
    report: &[u8],
    regs: [u64; 32],
    limit: u64,
    watches: Vec<Box<dyn Watch>>,
) -> Result<(u8, Vec<u8>), AllocError>
    requires limit { limit ≤ 1000000000 }
    requires points { ArePointsOf image.now points.now }
    requires offsets { AreOffsetsOf points.now offsets.now }
    requires kinds { map (λ watch. kind_of watch) watches.items ≡ four_kinds }
    requires fresh { map (λ watch. state watch) watches.items ≡ replicate 4 None }
    ensures { IfOk result (λ answer. IsRunAnswer image.now points.now offsets.now report.now regs limit answer.0 answer.1.items) }
{
    match read_report(alloc, report) {
        Ok(read) => checked(
            alloc, image, points, offsets, report, &read, regs, limit, watches,
        ),
        Err(refusal) => Ok((6, report_line(alloc, refusal)?)),
    }
}

// The same of a report that was read from these bytes.
fn checked(
    alloc: Global,
    image: &Image,
    points: &Points,
    offsets: &Offsets,
    bytes: &[u8],
    report: &Report,
    regs: [u64; 32],
    limit: u64,
    watches: Vec<Box<dyn Watch>>,
) -> Result<(u8, Vec<u8>), AllocError>
    requires limit { limit ≤ 1000000000 }
    requires points { ArePointsOf image.now points.now }
    requires offsets { AreOffsetsOf points.now offsets.now }
    requires kinds { map (λ watch. kind_of watch) watches.items ≡ four_kinds }
    requires fresh { map (λ watch. state watch) watches.items ≡ replicate 4 None }
    requires read { IsReadIn bytes.now report.now }
    ensures { IfOk result (λ answer. IsRunAnswer image.now points.now offsets.now bytes.now regs limit answer.0 answer.1.items) }
{
    match check_run(alloc, image, points, offsets, report, regs, limit, watches) {
        Ok(verdict) => Ok((status_of(&verdict), write_verdict(alloc, &verdict)?)),
        Err(RunRefusal::NotAPoint(address)) => Ok((6, stranger_line(alloc, address)?)),
        Err(RunRefusal::Memory) => Err(AllocError),
    }
}

fn status_of(verdict: &RunVerdict) -> u8
    ensures { result ≡ status_of verdict.now.found }
{
    if has_found(verdict.found.as_slice()) {
        7
    } else {
        0
    }
}
