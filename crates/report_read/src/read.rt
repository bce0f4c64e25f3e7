//! The reader of reports.

ghost use Rattle.std.specs.Prelude.{◌≡◌, ◌≤◌, ◌↔◌, All, IfOk, IsTrue};
ghost use Rattle.report_text.specs.Text.{text_of};
ghost use Rattle.report_lines.specs.Parts.{parts_of};
ghost use Rattle.report_lines.specs.NameTexts.{IsAddressed};
ghost use Rattle.report_read.specs.declared.draft.Place.TheVariants as places;
ghost use Rattle.report_text.specs.declared.reports.Report.{Report};
ghost use Rattle.report_read.specs.Written.{IsOfWords, IsReadAs};
ghost use Rattle.report_read.specs.Telling.{IsEndTold, IsJudgedOr, IsTextTold, IsTrackTold, begun};

use crate::draft::{Draft, Place};
use crate::judging::{close, judge};
use refusals::ReportRefusal;
use report_lines::{TrackFault, cut_at, read_header, read_track};
use report_text::{Report, Tracked};
use sqlite_items::Items;
use std::alloc::Global;

/// The report whose text the bytes are, else the first thing that is wrong with them and its line.
pub fn read_report(alloc: Global, bytes: &[u8]) -> Result<Report, ReportRefusal>
    ensures found { IfOk result (λ report. bytes.now ≡ text_of report) }
    ensures only { (report : Report) → IsOfWords report → bytes.now ≡ text_of report → IsReadAs report result }
    ensures told { IsTextTold bytes.now result }
{
    read_text(alloc, bytes)
}

// The same by its lines.
fn read_text(alloc: Global, bytes: &[u8]) -> Result<Report, ReportRefusal>
    ensures { IsTextTold bytes.now result }
{
    match cut_at(b'\n', bytes) {
        None => Err(ReportRefusal::Syntax(1)),
        Some((first, behind)) => match read_header(first) {
            None => Err(ReportRefusal::Syntax(1)),
            Some(version) => read_tracked(alloc, version, behind),
        },
    }
}

// The same behind the first line.
fn read_tracked(alloc: Global, version: u8, text: &[u8]) -> Result<Report, ReportRefusal>
    requires some { 1 ≤ version }
    requires most { version ≤ 2 }
    ensures { IsTrackTold version text.now result }
{
    match cut_at(b'\n', text) {
        None => Err(ReportRefusal::Syntax(2)),
        Some((track, behind)) => match read_track(alloc, track) {
            Ok(tracked) => read_lines(alloc, version, tracked, behind),
            Err(TrackFault::Syntax) => Err(ReportRefusal::Syntax(2)),
            Err(TrackFault::UnknownName) => Err(ReportRefusal::UnknownName(2)),
            Err(TrackFault::Order) => Err(ReportRefusal::Order(2)),
            Err(TrackFault::Memory) => Err(ReportRefusal::Memory),
        },
    }
}

// The same behind the tracked names.
fn read_lines(
    alloc: Global,
    version: u8,
    tracked: Tracked,
    text: &[u8],
) -> Result<Report, ReportRefusal>
    requires some { 1 ≤ version }
    requires most { version ≤ 2 }
    requires addressed { All IsAddressed tracked.names }
    ensures { IsJudgedOr (parts_of 10 text.now) 3 (begun version tracked) result }
{
    let mut draft = begin(alloc, version, tracked);
    let mut number = 3u64;
    let mut rest = text;
    while let Some((piece, behind)) = cut_at(b'\n', rest) {
        match judge(alloc, draft, number, piece) {
            Err(refusal) => return Err(refusal),
            Ok(next) => draft = next,
        }
        number += 1;
        rest = behind;
    }
    match judge_end(alloc, draft, number, rest) {
        Err(refusal) => Err(refusal),
        Ok(draft) => {
            let Draft {
                version,
                tracked,
                certs,
                points,
                ..
            } = draft;
            Ok(Report {
                version,
                tracked,
                certs,
                points,
            })
        }
    }
}

// The report before its third line.
fn begin(alloc: Global, version: u8, tracked: Tracked) -> Draft
    ensures { result ≡ begun version tracked }
{
    Draft {
        version,
        tracked,
        certs: Items::new(alloc),
        points: Items::new(alloc),
        place: Place::Top,
    }
}

// The report as it is read, if nothing is left to come.
fn judge_end(alloc: Global, draft: Draft, number: u64, rest: &[u8]) -> Result<Draft, ReportRefusal>
    ensures { IsEndTold number draft rest.now result }
{
    match close(alloc, draft) {
        Err(refusal) => Err(refusal),
        Ok(draft) => {
            if is_end(&draft.place) && rest.is_empty() {
                Ok(draft)
            } else {
                Err(ReportRefusal::Syntax(number))
            }
        }
    }
}

fn is_end(place: &Place) -> bool
    ensures { IsTrue result ↔ (place.now ≡ places.End) }
{
    matches!(place, Place::End)
}
