//! The summary of an analysis of a generated file, as text.

ghost use Rattle.std.specs.Prelude.{◌≡◌, ◌++◌, ◌≤◌, List, All, length, sum_by, count_by, IfOk, OnOk};
ghost use Rattle.flow_points.specs.Walks.{most_points};
ghost use Rattle.analyser_core.specs.declared.cert_line.CertLine.{CertLine};
ghost use Rattle.order_answers.specs.GenText.{count_line, gen_text, is_unreached, rows_told};

use analyser_core::procedures_of;
use number_text::push_dec;
use report_text::{PointRows, PointState, Report};
use std::alloc::{AllocError, Global};

/// The summary of the file with `n` procedures, which has these bytes and this report.
pub fn write_summary(
    alloc: Global,
    n: u32,
    bytes: &[u8],
    report: &Report,
) -> Result<Vec<u8>, AllocError>
    requires few { length report.now.points ≤ most_points }
    ensures { IfOk result (λ text. (certs : List CertLine) → text.items ≡ gen_text n bytes.now report.now certs) }
{
    known_rows(report);
    let points = report.points.as_slice();
    let procedures = procedures_of(alloc, points)?;
    let mut text = Vec::from_slice(alloc, b"affine-gen 1\n")?;
    push_count(&mut text, b"n", u64::from(n))?;
    push_count(&mut text, b"bytes", bytes.len() as u64)?;
    push_count(&mut text, b"points", points.len() as u64)?;
    push_count(&mut text, b"procs", procedures.len() as u64)?;
    push_count(&mut text, b"rows", rows_in(points))?;
    push_count(&mut text, b"unreached", unreached_in(points))?;
    text.extend_from_slice(b"end\n")?;
    Ok(text)
}

fn push_count(text: &mut Vec<u8>, name: &[u8], n: u64) -> Result<(), AllocError>
    ensures { OnOk result (text.new.items ≡ text.old.items ++ count_line name.now n) }
{
    text.extend_from_slice(name)?;
    text.extend_from_slice(b" ")?;
    push_dec(text, n)?;
    text.extend_from_slice(b"\n")
}

// How many rows the points tell.
fn rows_in(points: &[PointRows]) -> u64
    requires few { length points.now ≤ most_points }
    requires rows { All (λ point. rows_told point.state ≤ 17) points.now }
    ensures { result ≡ sum_by (λ point. rows_told point.state) points.now }
{
    let mut rows = 0;
    for point in points {
        rows += rows_told(&point.state);
    }
    rows
}

fn rows_told(state: &PointState) -> u64
    ensures { result ≡ rows_told state.now }
{
    match state {
        PointState::Unreached => 0,
        PointState::Rows(rows) => rows.len() as u64,
    }
}

// How many of the points are unreached.
fn unreached_in(points: &[PointRows]) -> u64
    requires { length points.now ≤ most_points }
    ensures { result ≡ count_by (λ point. is_unreached point.state) points.now }
{
    let mut unreached = 0;
    for point in points {
        unreached += u64::from(is_unreached(&point.state));
    }
    unreached
}

fn is_unreached(state: &PointState) -> bool
    ensures { result ≡ is_unreached state.now }
{
    matches!(state, PointState::Unreached)
}

// A point tells at most as many rows as they are wide.
fn known_rows(report: &Report)
    ensures { All (λ point. rows_told point.state ≤ 17) report.now.points }
{}
