//! The analysis of the low 32 bits.

ghost use Rattle.std.specs.Prelude.{◌≡◌, ◌<◌, ◌≤◌, IfErr, IfOk, MatchResult};
ghost use Rattle.affine_prog.specs.Programs.{IsWellFormed};
ghost use Rattle.affine_lift.specs.declared.width.Width.TheVariants.{Narrow};
ghost use Rattle.affine_lift.specs.Lifting.{IsLiftedBy};
ghost use Rattle.block_program.specs.Numbers.{AreBlocks};
ghost use Rattle.analyser_core.specs.Heads.{most_heads};
ghost use Rattle.narrow_words.specs.Accepted.{IsNarrowRefusal};
ghost use Rattle.narrow_words.specs.Reports.{IsNarrowReportOver};
ghost use Rattle.narrow_words.specs.Made.{IsNarrowMade, IsNarrowMadeRefusal};

use crate::accept::accepted;
use crate::points::narrow_points;
use crate::reports::NarrowReport;
use affine_lift::lift_narrow;
use affine_prog::Program;
use analyser_core::{MOST_HEADS, Refusal};
use block_program::{Blocks, contract_merged};
use call_summaries::exits;
use flow_points::Points;
use frame_offsets::offsets;
use lead_basis::{Memory, Steps};
use reach_modules::solve::reach_by_exits;
use report_text::NarrowTracked;
use std::alloc::Global;
use std::marker::Brand;
use std::sync::ledger::{Blank, Ledger};

/// The relations modulo 2^32 of a file's bytes for the names of a list; or the first cause why there are none.
pub fn narrow_analyse<L: Ledger>(
    alloc: Global,
    bytes: &[u8],
    track: &str,
    steps: &mut Steps<L>,
) -> Result<NarrowReport, Refusal>
    ensures report { MatchResult result (IsNarrowReportOver bytes.now track.now) (IsNarrowRefusal bytes.now track.now) }
{
    let (points, tracked) = match accepted(alloc, bytes, track) {
        Ok(accepted) => accepted,
        Err(refusal) => return Err(refusal),
    };
    report_of(alloc, &points, tracked, steps)
}

/// The same, for a caller that counts nothing.
pub fn narrow_analyse_uncounted(
    alloc: Global,
    bytes: &[u8],
    track: &str,
) -> Result<NarrowReport, Refusal>
    ensures { MatchResult result (IsNarrowReportOver bytes.now track.now) (IsNarrowRefusal bytes.now track.now) }
{
    analyse_from::<Brand>(alloc, &Asked { bytes, track }, Blank::new(1))
}

// A file's bytes and a list.
#[derive(Drop)]
struct Asked<'a> {
    bytes: &'a [u8],
    track: &'a str,
}

// The same on a ledger that begins.
fn analyse_from<L: Ledger>(
    alloc: Global,
    asked: &Asked,
    blank: Blank,
) -> Result<NarrowReport, Refusal>
    requires name { blank.name ≡ L.name }
    requires parts { blank.parts ≡ L.parts }
    requires some { 0 < blank.parts }
    ensures { MatchResult result (IsNarrowReportOver asked.now.bytes.now asked.now.track.now) (IsNarrowRefusal asked.now.bytes.now asked.now.track.now) }
{
    let mut steps = Steps::<L>::new(blank);
    narrow_analyse(alloc, asked.bytes, asked.track, &mut steps)
}

// The report of points for names.
fn report_of<L: Ledger>(
    alloc: Global,
    points: &Points,
    tracked: NarrowTracked,
    steps: &mut Steps<L>,
) -> Result<NarrowReport, Refusal>
    ensures made { IfOk result (IsNarrowMade points.now tracked.names) }
    ensures refusal { IfErr result (IsNarrowMadeRefusal points.now tracked.names) }
{
    let offsets = offsets(alloc, points)?;
    let program = lift_narrow(alloc, points, &offsets, &tracked)?;
    let blocks = contract_merged(alloc, &program)?;
    if blocks.simple_heads() > MOST_HEADS {
        return Err(Refusal::Heads(MOST_HEADS));
    }
    let report = report_by(alloc, points, tracked, &program, &blocks, steps)?;
    Ok(report)
}

// The report of points for names, by their program and its block program.
fn report_by<L: Ledger>(
    alloc: Global,
    points: &Points,
    tracked: NarrowTracked,
    program: &Program,
    blocks: &Blocks,
    steps: &mut Steps<L>,
) -> Result<NarrowReport, Memory>
    requires lifted { IsLiftedBy Narrow points.now tracked.names program.now }
    requires formed { IsWellFormed program.now }
    requires blocks { AreBlocks program.now blocks.now }
    requires few { blocks.now.simple_heads ≤ most_heads }
    ensures { IfOk result (IsNarrowMade points.now tracked.names) }
{
    let small = blocks.small();
    let exits = exits(alloc, small, steps)?;
    let reached = reach_by_exits(alloc, small, exits.bases(), steps)?;
    points.known();
    let points = narrow_points(alloc, points, &tracked, program, blocks, &reached, steps)?;
    Ok(NarrowReport { tracked, points })
}
