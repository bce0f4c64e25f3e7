//! What `upgrade FILE REPORT` answers.

ghost use Rattle.std.specs.Prelude.{◌≡◌, ◌≢◌, IfOk};
ghost use Rattle.analyser_core.specs.declared.upgrades.UpgradeRefusal.TheVariants.{Memory};
ghost use Rattle.run_answers.specs.Answers.{IsReadIn};
ghost use Rattle.order_answers.specs.UpgradeRefusals.{upgrade_line, upgrade_status};
ghost use Rattle.order_answers.specs.ReportAnswers.{IsUpgradeAnswer};

use analyser_core::{UpgradeRefusal, upgrade_uncounted};
use flow_points::Points;
use frame_offsets::offsets;
use refusal_lines::value_line;
use report_read::{ReportRefusal, read_report};
use report_text::{Report, write_report};
use run_answers::{report_line, stranger_line};
use std::alloc::{AllocError, Global};

/// What `upgrade FILE REPORT` answers for the points of a file and the bytes of a report.
pub fn answer_to_upgrade(
    alloc: Global,
    points: &Points,
    report: &[u8],
) -> Result<(u8, Vec<u8>), AllocError>
    ensures { IfOk result (λ answer. IsUpgradeAnswer points.now report.now answer.0 answer.1.items) }
{
    match read_report(alloc, report) {
        Ok(old) => upgraded(alloc, points, report, old),
        Err(ReportRefusal::Memory) => Err(AllocError),
        Err(refusal) => Ok((6, report_line(alloc, refusal)?)),
    }
}

// The answer where these bytes were read as a report.
fn upgraded(
    alloc: Global,
    points: &Points,
    bytes: &[u8],
    old: Report,
) -> Result<(u8, Vec<u8>), AllocError>
    requires { IsReadIn bytes.now old }
    ensures { IfOk result (λ answer. IsUpgradeAnswer points.now bytes.now answer.0 answer.1.items) }
{
    let Ok(offsets) = offsets(alloc, points) else {
        return Err(AllocError);
    };
    match upgrade_uncounted(alloc, points, &offsets, old) {
        Ok(new) => Ok((0, write_report(alloc, &new)?)),
        Err(UpgradeRefusal::Memory) => Err(AllocError),
        Err(refusal) => Ok((status_of(refusal), line_of(alloc, refusal)?)),
    }
}

// The status of a refused upgrade.
fn status_of(refusal: UpgradeRefusal) -> u8
    ensures { result ≡ upgrade_status refusal }
{
    match refusal {
        UpgradeRefusal::AlreadyNew | UpgradeRefusal::NotAPoint(_) => 6,
        UpgradeRefusal::Heads(_) => 1,
        UpgradeRefusal::Memory => 5,
    }
}

// The line of a refused upgrade. Want of memory has none.
fn line_of(alloc: Global, refusal: UpgradeRefusal) -> Result<Vec<u8>, AllocError>
    ensures { IfOk result (λ line. (line.items ≡ upgrade_line refusal) × (refusal ≢ Memory)) }
{
    match refusal {
        UpgradeRefusal::AlreadyNew => Vec::from_slice(alloc, b"refused report AlreadyNew\n"),
        UpgradeRefusal::NotAPoint(address) => stranger_line(alloc, address),
        UpgradeRefusal::Heads(limit) => value_line(alloc, b"TooManyHeads", u64::from(limit)),
        UpgradeRefusal::Memory => Err(AllocError),
    }
}
