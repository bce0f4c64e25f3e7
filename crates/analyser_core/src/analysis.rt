//! The analysis.

ghost use Rattle.std.specs.Prelude.{◌≡◌, ◌<◌, ◌≤◌, IfOk, IfErr, MatchResult};
ghost use Rattle.affine_prog.specs.Programs.{IsWellFormed};
ghost use Rattle.affine_lift.specs.Lifting.{IsLifted};
ghost use Rattle.block_program.specs.Numbers.{AreBlocks};
ghost use Rattle.analyser_core.specs.Heads.{most_heads};
ghost use Rattle.analyser_core.specs.Accepted.{IsRefusal};
ghost use Rattle.analyser_core.specs.Reports.{IsReportOver};
ghost use Rattle.analyser_core.specs.Work.{IsWithinWork, CountsStates};
ghost use Rattle.analyser_core.specs.MachineRuns.{TellsOfRuns};
ghost use Rattle.analyser_core.specs.Made.{IsMade, IsMadeRefusal, HasWorked};

use crate::Refusal;
use crate::accept::accepted;
use crate::cert_line::CertLine;
use crate::certify::{certify, words_of};
use crate::tell::{known_states, told};
use affine_lift::lift;
use affine_prog::Program;
use block_program::{Blocks, contract_merged};
use call_summaries::exits;
use flow_points::Points;
use frame_offsets::offsets;
use lead_basis::{Memory, Steps};
use reach_modules::solve::reach_by_exits;
use report_text::{Report, Tracked};
use sqlite_items::Items;
use std::alloc::Global;
use std::marker::Brand;
use std::sync::ledger::{Blank, Ledger};

/// A program may have this many heads, by the simple notion: bases of maps are kept at no more nodes.
pub const MOST_HEADS: u32 = 4096;

/// What an analysis found: the report, and the certificates that it tells.
#[derive(Debug, Drop)]
pub struct Analysis {
    pub report: Report,
    pub certs: Items<CertLine>,
}

/// The analysis of a file's bytes for the names of a list; or the first cause why there is none. The
/// steps are placements of rows in the bases of the program's nodes, of maps at its heads alone.
pub fn analyse<L: Ledger>(
    alloc: Global,
    bytes: &[u8],
    track: &str,
    steps: &mut Steps<L>,
) -> Result<Analysis, Refusal>
    ensures report { MatchResult result (λ a. IsReportOver bytes.now track.now a.report a.certs) (IsRefusal bytes.now track.now) }
    ensures runs { IfOk result (λ a. TellsOfRuns bytes.now track.now a.report a.certs) }
    ensures bounded { IsWithinWork bytes.now track.now steps.old steps.new }
    ensures counts_states { IfOk result (λ a. CountsStates bytes.now track.now steps.old steps.new) }
{
    let (points, tracked) = match accepted(alloc, bytes, track) {
        Ok(accepted) => accepted,
        Err(refusal) => return Err(refusal),
    };
    analysis_of(alloc, &points, tracked, steps)
}

/// The same, for a caller that counts nothing.
pub fn analyse_uncounted(alloc: Global, bytes: &[u8], track: &str) -> Result<Analysis, Refusal>
    ensures { MatchResult result (λ a. IsReportOver bytes.now track.now a.report a.certs) (IsRefusal bytes.now track.now) }
{
    analyse_from::<Brand>(alloc, &Asked { bytes, track }, Blank::new(1))
}

// A file's bytes and a list.
#[derive(Drop)]
struct Asked<'a> {
    bytes: &'a [u8],
    track: &'a str,
}

// The same on a ledger that begins.
fn analyse_from<L: Ledger>(alloc: Global, asked: &Asked, blank: Blank) -> Result<Analysis, Refusal>
    requires name { blank.name ≡ L.name }
    requires parts { blank.parts ≡ L.parts }
    requires some { 0 < blank.parts }
    ensures { MatchResult result (λ a. IsReportOver asked.now.bytes.now asked.now.track.now a.report a.certs) (IsRefusal asked.now.bytes.now asked.now.track.now) }
{
    let mut steps = Steps::<L>::new(blank);
    analyse(alloc, asked.bytes, asked.track, &mut steps)
}

// The analysis of points for names.
fn analysis_of<L: Ledger>(
    alloc: Global,
    points: &Points,
    tracked: Tracked,
    steps: &mut Steps<L>,
) -> Result<Analysis, Refusal>
    ensures made { IfOk result (λ a. IsMade points.now tracked.names steps.old steps.new a.report a.certs) }
    ensures refusal { IfErr result (IsMadeRefusal points.now tracked.names) }
    ensures worked { HasWorked points.now tracked.names steps.old steps.new }
{
    let offsets = offsets(alloc, points)?;
    let program = lift(alloc, points, &offsets, &tracked)?;
    let blocks = contract_merged(alloc, &program)?;
    if blocks.simple_heads() > MOST_HEADS {
        return Err(Refusal::Heads(MOST_HEADS));
    }
    let analysis = analysis_by(alloc, points, tracked, &program, &blocks, steps)?;
    Ok(analysis)
}

// The analysis of points for names, by their program and its block program.
fn analysis_by<L: Ledger>(
    alloc: Global,
    points: &Points,
    tracked: Tracked,
    program: &Program,
    blocks: &Blocks,
    steps: &mut Steps<L>,
) -> Result<Analysis, Memory>
    requires lifted { IsLifted points.now tracked.names program.now }
    requires formed { IsWellFormed program.now }
    requires blocks { AreBlocks program.now blocks.now }
    requires few { blocks.now.simple_heads ≤ most_heads }
    ensures made { IfOk result (λ a. IsMade points.now tracked.names steps.old steps.new a.report a.certs) }
    ensures worked { HasWorked points.now tracked.names steps.old steps.new }
{
    let small = blocks.small();
    let exits = exits(alloc, small, steps)?;
    let reached = reach_by_exits(alloc, small, exits.bases(), steps)?;
    known_states(&reached, small.nodes);
    points.known();
    let certs = certify(
        alloc,
        points,
        &tracked,
        program,
        exits.bases(),
        points.procedures(),
    )?;
    let words = words_of(alloc, certs.as_slice())?;
    let points = told(alloc, points, &tracked, program, blocks, &reached, steps)?;
    Ok(Analysis {
        report: Report {
            version: 2,
            tracked,
            certs: words,
            points,
        },
        certs,
    })
}
