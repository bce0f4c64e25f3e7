//! Reports of version 1, made reports of version 2.

ghost use Rattle.std.specs.Prelude.{◌≡◌, ◌<◌, All, Contains, IfNone, IfOk, IfSome, MatchResult, map};
ghost use Rattle.affine_prog.specs.Programs.{IsWellFormed};
ghost use Rattle.affine_lift.specs.Lifting.{IsLifted};
ghost use Rattle.block_program.specs.Numbers.{AreBlocks};
ghost use Rattle.frame_offsets.specs.Frames.{AreOffsetsOf};
ghost use Rattle.report_text.specs.Certificates.{procedures_of};
ghost use Rattle.analyser_core.specs.ReadOff.{AreWordsAt};
ghost use Rattle.analyser_core.specs.Upgrades.{IsKnown, IsUpgradeOf, IsUpgradeRefusal};

use crate::analysis::MOST_HEADS;
use crate::certify::{certify, words_of};
use affine_lift::lift;
use affine_prog::Program;
use block_program::{Blocks, contract_merged};
use call_summaries::exits;
use flow_points::Points;
use frame_offsets::Offsets;
use lead_basis::{Memory, Steps};
use report_places::stranger;
use report_text::{PointRows, Report, ReportCert, Tracked};
use sqlite_items::Items;
use std::alloc::{AllocError, Global};
use std::marker::Brand;
use std::sync::ledger::{Blank, Ledger};

/// Why a report isn't made one of version 2, in the order in which the causes are looked for.
#[derive(Clone, Copy, Debug, PartialEq, Eq)]
pub enum UpgradeRefusal {
    /// It is of version 2.
    AlreadyNew,
    /// It names a procedure, or tells of a point, at this address that the file doesn't have.
    NotAPoint(u64),
    /// The program for its names has more heads than this.
    Heads(u32),
    /// There was no memory.
    Memory,
}

impl From<AllocError> for UpgradeRefusal {
    ghost use Rattle.std.specs.Prelude.{◌≡◌};
    ghost use Rattle.analyser_core.specs.declared.upgrades.UpgradeRefusal.TheVariants.{Memory};

    ghost from_gives = { λ _ e. e ≡ Memory };

    fn from(_error: AllocError) -> UpgradeRefusal {
        UpgradeRefusal::Memory
    }
}

impl From<Memory> for UpgradeRefusal {
    ghost use Rattle.std.specs.Prelude.{◌≡◌};
    ghost use Rattle.analyser_core.specs.declared.upgrades.UpgradeRefusal.TheVariants.{Memory};

    ghost from_gives = { λ _ e. e ≡ Memory };

    fn from(_error: Memory) -> UpgradeRefusal {
        UpgradeRefusal::Memory
    }
}

/// The report of version 2 with the names and points of a report of version 1, and the certificates of the points'
/// procedures; or the first cause why there is none. The report is consumed.
pub fn upgrade<L: Ledger>(
    alloc: Global,
    points: &Points,
    offsets: &Offsets,
    report: Report,
    steps: &mut Steps<L>,
) -> Result<Report, UpgradeRefusal>
    requires { AreOffsetsOf points.now offsets.now }
    ensures { MatchResult result (IsUpgradeOf points.now report) (IsUpgradeRefusal points.now report) }
{
    if let Some(refusal) = early_refusal(points, &report) {
        return Err(refusal);
    }
    points.known();
    let program = lift(alloc, points, offsets, &report.tracked)?;
    let blocks = contract_merged(alloc, &program)?;
    if blocks.simple_heads() > MOST_HEADS {
        return Err(UpgradeRefusal::Heads(MOST_HEADS));
    }
    let procedures = procedures_of(alloc, report.points.as_slice())?;
    let names = &report.tracked;
    let certs = certs_at(alloc, points, names, &program, &blocks, &procedures, steps)?;
    Ok(Report {
        version: 2,
        tracked: report.tracked,
        certs,
        points: report.points,
    })
}

/// The same, for a caller that counts nothing.
pub fn upgrade_uncounted(
    alloc: Global,
    points: &Points,
    offsets: &Offsets,
    report: Report,
) -> Result<Report, UpgradeRefusal>
    requires { AreOffsetsOf points.now offsets.now }
    ensures { MatchResult result (IsUpgradeOf points.now report) (IsUpgradeRefusal points.now report) }
{
    upgrade_from::<Brand>(alloc, points, offsets, report, Blank::new(1))
}

// The same on a ledger that begins.
fn upgrade_from<L: Ledger>(
    alloc: Global,
    points: &Points,
    offsets: &Offsets,
    report: Report,
    blank: Blank,
) -> Result<Report, UpgradeRefusal>
    requires offsets { AreOffsetsOf points.now offsets.now }
    requires name { blank.name ≡ L.name }
    requires parts { blank.parts ≡ L.parts }
    requires some { 0 < blank.parts }
    ensures { MatchResult result (IsUpgradeOf points.now report) (IsUpgradeRefusal points.now report) }
{
    let mut steps = Steps::<L>::new(blank);
    upgrade(alloc, points, offsets, report, &mut steps)
}

// The first cause why a report isn't made one of version 2, whatever its program.
fn early_refusal(points: &Points, report: &Report) -> Option<UpgradeRefusal>
    ensures none { IfNone result ((report.now.version ≡ 1) × IsKnown points.now report.now) }
    ensures some { IfSome result (IsUpgradeRefusal points.now report.now) }
{
    if report.version == 2 {
        return Some(UpgradeRefusal::AlreadyNew);
    }
    stranger(points, report).map(UpgradeRefusal::NotAPoint)
}

// The certificates of some of a program's procedures, by its block program.
fn certs_at<L: Ledger>(
    alloc: Global,
    points: &Points,
    tracked: &Tracked,
    program: &Program,
    blocks: &Blocks,
    procedures: &[u64],
    steps: &mut Steps<L>,
) -> Result<Items<ReportCert>, Memory>
    requires lifted { IsLifted points.now tracked.now.names program.now }
    requires formed { IsWellFormed program.now }
    requires blocks { AreBlocks program.now blocks.now }
    requires within { All (Contains points.now.procedures) procedures.now }
    ensures { IfOk result (AreWordsAt program.now points.now tracked.now.names procedures.now) }
{
    let exits = exits(alloc, blocks.small(), steps)?;
    let certs = certify(alloc, points, tracked, program, exits.bases(), procedures)?;
    let words = words_of(alloc, certs.as_slice())?;
    Ok(words)
}

/// The procedures of points, each once where they ascend.
pub fn procedures_of(alloc: Global, points: &[PointRows]) -> Result<Vec<u64>, AllocError>
    ensures { IfOk result (λ procedures. procedures.items ≡ procedures_of points.now) }
{
    let mut procedures = entries_of(alloc, points)?;
    procedures.dedup();
    Ok(procedures)
}

fn entries_of(alloc: Global, points: &[PointRows]) -> Result<Vec<u64>, AllocError>
    ensures { IfOk result (λ entries. entries.items ≡ map (λ point. point.proc_entry) points.now) }
{
    points.iter().map(|point| point.proc_entry).collect(alloc)
}
