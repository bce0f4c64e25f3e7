//! The text of a report of narrow relations.

ghost use Rattle.std.specs.Prelude.{◌≡◌, IfOk, map};
ghost use Rattle.narrow_words.specs.Text.{widened, widened_state, widened_point, narrow_text_of};

use crate::reports::NarrowReport;
use report_text::{PointRows, PointState, push_names, push_points};
use sqlite_items::Items;
use std::alloc::{AllocError, Global};
use word_rows::Row;

/// The text of a report.
pub fn narrow_text(alloc: Global, report: &NarrowReport) -> Result<Vec<u8>, AllocError>
    ensures { IfOk result (λ text. text.items ≡ narrow_text_of report.now) }
{
    let names = report.tracked.names.as_slice();
    let points = widened_points(alloc, report.points.as_slice())?;
    let mut text = Vec::new(alloc);
    text.extend_from_slice(b"affine-narrow 1\ntrack ")?;
    push_names(&mut text, names)?;
    text.extend_from_slice(b"\n")?;
    push_points(&mut text, names, &[], points.as_slice())?;
    text.extend_from_slice(b"end\n")?;
    Ok(text)
}

// The points with each word of their rows sign-extended.
fn widened_points(alloc: Global, points: &[PointRows]) -> Result<Items<PointRows>, AllocError>
    ensures { IfOk result (λ own. own ≡ map widened_point points.now) }
{
    let mut own = Items::new(alloc);
    for point in points {
        let state = widened_state(alloc, &point.state)?;
        own.push(PointRows {
            proc_entry: point.proc_entry,
            address: point.address,
            state,
        })?;
    }
    Ok(own)
}

fn widened_state(alloc: Global, state: &PointState) -> Result<PointState, AllocError>
    ensures { IfOk result (λ own. own ≡ widened_state state.now) }
{
    match state {
        PointState::Unreached => Ok(PointState::Unreached),
        PointState::Rows(rows) => {
            let own = widened_rows(alloc, rows.as_slice())?;
            Ok(PointState::Rows(Items::from_vec(own)))
        }
    }
}

fn widened_rows(alloc: Global, rows: &[Row<17>]) -> Result<Vec<Row<17>>, AllocError>
    ensures { IfOk result (λ own. own.items ≡ map (map widened) rows.now) }
{
    rows.iter().map(|row| widened_row(row)).collect(alloc)
}

fn widened_row(row: &Row<17>) -> Row<17>
    ensures { result ≡ map widened row.now }
{
    row.known();
    let mut own = Row::zero();
    for i in 0..17usize {
        own = own.with(i, widened(row.get(i)));
    }
    own
}

// The word that sign-extends a word below 2^32; 2^31 stays as it is.
fn widened(word: u64) -> u64
    ensures { result ≡ widened word }
{
    if word <= 1 << 31 {
        word
    } else {
        word.wrapping_add(u64::MAX << 32)
    }
}
