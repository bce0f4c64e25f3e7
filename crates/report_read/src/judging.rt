//! The judge of a line.

ghost use Rattle.std.specs.Prelude.{All};
ghost use Rattle.report_lines.specs.NameTexts.{IsAddressed};
ghost use Rattle.report_read.specs.Steps.{IsClosed, IsOtherStep, IsRelationAt, IsRelationIn, IsStep};

use crate::draft::{Draft, Place};
use crate::reduced::are_reduced;
use crate::steps::{
    at_step, cert_step, end_step, no_rows_step, proc_step, relation_step, tell, unreached_step,
};
use refusals::ReportRefusal;
use report_lines::{Line, Relation, behind, read_line, read_relation};
use report_text::PointState;
use std::alloc::Global;

/// What the line with this number and this text makes of the report, or what is wrong with it.
pub fn judge(alloc: Global, draft: Draft, number: u64, piece: &[u8]) -> Result<Draft, ReportRefusal>
    requires { All IsAddressed draft.tracked.names }
    ensures { IsStep number draft piece.now result }
{
    match relation_at(&draft, piece) {
        Some(relation) => relation_step(alloc, draft, number, relation),
        None => match close(alloc, draft) {
            Err(refusal) => Err(refusal),
            Ok(draft) => judge_other(alloc, draft, number, piece),
        },
    }
}

// What the piece tells as a relation, where one is allowed.
fn relation_at(draft: &Draft, piece: &[u8]) -> Option<Relation>
    requires { All IsAddressed draft.now.tracked.names }
    ensures { IsRelationAt draft.now piece.now result }
{
    match &draft.place {
        Place::Point { entry, .. } => relation_in(draft, *entry, piece),
        Place::Rows { entry, .. } => relation_in(draft, *entry, piece),
        _ => None,
    }
}

fn relation_in(draft: &Draft, entry: u64, piece: &[u8]) -> Option<Relation>
    requires { All IsAddressed draft.now.tracked.names }
    ensures { IsRelationIn draft.now.tracked.names entry piece.now result }
{
    match behind(b"rel ", piece) {
        None => None,
        Some(text) => read_relation(draft.tracked.names.as_slice(), entry, text),
    }
}

/// The report with the rows that stand last, if they are reduced.
pub fn close(alloc: Global, draft: Draft) -> Result<Draft, ReportRefusal>
    ensures { IsClosed draft result }
{
    let Draft {
        version,
        tracked,
        certs,
        points,
        place,
    } = draft;
    match place {
        Place::Rows {
            entry,
            address,
            line,
            rows,
        } => match are_reduced(alloc, rows.as_slice()) {
            Err(_) => Err(ReportRefusal::Memory),
            Ok(false) => Err(ReportRefusal::NotReduced(line)),
            Ok(true) => {
                let draft = Draft {
                    version,
                    tracked,
                    certs,
                    points,
                    place: Place::Top,
                };
                tell(draft, entry, address, PointState::Rows(rows))
            }
        },
        place => Ok(Draft {
            version,
            tracked,
            certs,
            points,
            place,
        }),
    }
}

// The same of a piece that is no relation, where no rows stand last.
fn judge_other(
    alloc: Global,
    draft: Draft,
    number: u64,
    piece: &[u8],
) -> Result<Draft, ReportRefusal>
    ensures { IsOtherStep number draft piece.now result }
{
    match read_line(piece) {
        None => Err(ReportRefusal::Syntax(number)),
        Some(Line::Proc(entry)) => proc_step(draft, number, entry),
        Some(Line::Cert(name, word)) => cert_step(draft, number, name, word),
        Some(Line::At(address)) => at_step(draft, number, address),
        Some(Line::NoRows) => no_rows_step(alloc, draft, number),
        Some(Line::Unreached) => unreached_step(draft, number),
        Some(Line::End) => end_step(draft, number),
    }
}
