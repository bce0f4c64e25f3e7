//! The way of a row through a basis.

ghost use Rattle.std.specs.Prelude.{◌≡◌, ◌≢◌, ◌<◌, ◌≤◌, ◌%◌, ◌↔◌, length, drop, slice_index, All, HoldsAt, IsTrue, MatchResult, vec_len};
ghost use Rattle.word_rows.specs.Rows.{lead, pivot};
ghost use Rattle.row_modules.specs.Bases.{IsLeadingBasis};
ghost use Rattle.lead_basis.specs.Inserts.{AddsFrom, HasLead, LacksLead};
ghost use Rattle.lead_basis.specs.Marks.{Marks, Writes};

use crate::multiples::{closing, divides, normal, take_multiple};
use crate::{Memory, Steps};
use std::sync::ledger::Ledger;
use word_rows::Row;

/// Whether the lead of a row is before this position.
fn leads_before<const N: usize>(row: &Row<N>, position: usize) -> bool
    requires { position ≤ N }
    ensures { IsTrue result ↔ (lead row.now < position) }
{
    match row.lead() {
        Some(lead) => lead < position,
        None => false,
    }
}

/// Looks for the row with its lead at this position, among those from `from` on: its place, or else the one for it.
fn find_lead<const N: usize>(rows: &[Row<N>], from: usize, position: usize) -> Result<usize, usize>
    requires from { from ≤ length rows.now }
    requires position { position < N }
    requires basis { IsLeadingBasis N (drop from rows.now) }
    ensures { MatchResult result (HasLead rows.now from position) (LacksLead rows.now from position) }
{
    let mut at = from;
    while at < rows.len() && leads_before(&rows[at], position) {
        at += 1;
    }
    if at < rows.len() && leads_before(&rows[at], position + 1) {
        Ok(at)
    } else {
        Err(at)
    }
}

/// Marks the lead of a row.
fn mark<const N: usize>(row: &Row<N>, marks: &mut Row<N>)
    ensures { Marks N row.now marks.old marks.new }
{
    row.known();
    marks.known();
    if let Some(lead) = row.lead() {
        *marks = marks.with(lead, 1);
    }
}

/// Adds a row to those from `from` on, and leaves in its place what is left of it. The rows that it writes are
/// marked.
#[cycle(place)]
pub(crate) fn place<const N: usize, L: Ledger>(
    rows: &mut Vec<Row<N>>,
    from: usize,
    row: &mut Row<N>,
    marks: &mut Row<N>,
    steps: &mut Steps<L>,
) -> Result<bool, Memory>
    requires within { from ≤ vec_len rows.old }
    requires basis { IsLeadingBasis N (drop from rows.old.items) }
    ensures adds { AddsFrom N from rows.old.items row.old rows.new.items result steps.old steps.new }
    ensures writes { Writes rows.old.items rows.new.items result marks.old marks.new }
{
    row.known();
    let Some(lead) = row.lead() else {
        return Ok(false);
    };
    match find_lead(rows, from, lead) {
        Ok(at) => {
            if divides(&rows[at], row) {
                take_multiple(row, &rows[at]);
                place(rows, at + 1, row, marks, steps)
            } else {
                exchange(rows, at, row, marks, steps)
            }
        }
        Err(at) => add(rows, at, row, marks, steps),
    }
}

/// Adds a row with a new lead, before the row at `at`.
#[cycle(place)]
fn add<const N: usize, L: Ledger>(
    rows: &mut Vec<Row<N>>,
    at: usize,
    row: &Row<N>,
    marks: &mut Row<N>,
    steps: &mut Steps<L>,
) -> Result<bool, Memory>
    requires within { at ≤ vec_len rows.old }
    requires basis { IsLeadingBasis N (drop at rows.old.items) }
    requires some { lead row.now < N }
    requires later { All (λ r. lead row.now < lead r) (drop at rows.old.items) }
    ensures adds { AddsFrom N at rows.old.items row.now rows.new.items result steps.old steps.new }
    ensures writes { Writes rows.old.items rows.new.items result marks.old marks.new }
{
    row.known();
    let own = normal(row);
    place(rows, at, &mut closing(&own), marks, steps)?;
    match rows.insert(at, own) {
        Ok(()) => {
            mark(row, marks);
            steps.tick();
            Ok(true)
        }
        Err(_) => Err(Memory),
    }
}

/// Adds a row in place of the one at `at`, which has its lead and a greater pivot.
#[cycle(place)]
fn exchange<const N: usize, L: Ledger>(
    rows: &mut Vec<Row<N>>,
    at: usize,
    row: &Row<N>,
    marks: &mut Row<N>,
    steps: &mut Steps<L>,
) -> Result<bool, Memory>
    requires within { at < vec_len rows.old }
    requires basis { IsLeadingBasis N (drop at rows.old.items) }
    requires same_lead { HoldsAt (λ r. lead r ≡ lead row.now) rows.old.items at }
    requires left_over { HoldsAt (λ r. slice_index row.now (lead row.now) % pivot r ≢ 0) rows.old.items at }
    ensures adds { AddsFrom N at rows.old.items row.now rows.new.items result steps.old steps.new }
    ensures writes { Writes rows.old.items rows.new.items result marks.old marks.new }
{
    row.known();
    let own = normal(row);
    let mut rest = rows[at];
    take_multiple(&mut rest, &own);
    place(rows, at + 1, &mut rest, marks, steps)?;
    rows[at] = own;
    mark(row, marks);
    steps.tick();
    Ok(true)
}
