//! The question whether a row holds at a point, and its answer as text.

ghost use Rattle.std.specs.Prelude.{◌≡◌, ◌<◌, Some, slice_get, IfOk, MatchResult};
ghost use Rattle.affine_prog.specs.Programs.{owner_of, visible_in};
ghost use Rattle.row_modules.specs.Positions.{with_constant, IsZeroOutside};
ghost use Rattle.row_read.specs.Rows.{IsRowText};
ghost use Rattle.refute_answers.specs.Asked.{HasProgram, IsTold, IsRefuteAnswer, IsRefuteRefusal};
ghost use Rattle.refute_answers.specs.Lifted.{IsAnswerText, IsLateRefusal};

use crate::accept::{accepted, program_of};
use crate::refusal::RefuteRefusal;
use affine_prog::Program;
use analyser_core::Refusal;
use flow_points::{Point, Points};
use lead_basis::{Memory, Steps};
use lifted_calls::{lifted_calls_are_plain, seen_rows_are_visible};
use needed_derivs::needed_alone;
use refute_path::refute;
use refute_text::write_refuted;
use report_text::Tracked;
use row_read::read_row;
use std::alloc::Global;
use std::marker::Brand;
use std::sync::ledger::{Blank, Ledger};
use word_rows::Row;

/// The text that says whether a row holds at a point of a file's bytes, for the names of a list, and else a path that breaks
/// it; or the first cause for which that isn't told.
pub fn refute_row(
    alloc: Global,
    bytes: &[u8],
    list: &str,
    at: Point,
    row: &str,
) -> Result<Vec<u8>, RefuteRefusal>
    requires { IsRowText row.now }
    ensures { MatchResult result (λ text. IsRefuteAnswer bytes.now list.now at row.now text.items) (IsRefuteRefusal bytes.now list.now at row.now) }
{
    refute_from::<Brand>(
        alloc,
        &Asked {
            bytes,
            list,
            at,
            row,
        },
        Blank::new(1),
    )
}

// A file's bytes, a list, a point and a row.
#[derive(Drop)]
struct Asked<'a> {
    bytes: &'a [u8],
    list: &'a str,
    at: Point,
    row: &'a str,
}

// The same on a ledger that begins.
fn refute_from<L: Ledger>(
    alloc: Global,
    asked: &Asked,
    blank: Blank,
) -> Result<Vec<u8>, RefuteRefusal>
    requires name { blank.name ≡ L.name }
    requires parts { blank.parts ≡ L.parts }
    requires some { 0 < blank.parts }
    requires row { IsRowText asked.now.row.now }
    ensures { MatchResult result (λ text. IsRefuteAnswer asked.now.bytes.now asked.now.list.now asked.now.at asked.now.row.now text.items)
        (IsRefuteRefusal asked.now.bytes.now asked.now.list.now asked.now.at asked.now.row.now) }
{
    let mut steps = Steps::<L>::new(blank);
    match accepted(alloc, asked.bytes, asked.list) {
        Err(refusal) => Err(RefuteRefusal::File(refusal)),
        Ok((points, tracked)) => {
            told_of(alloc, &points, &tracked, asked.at, asked.row, &mut steps)
        }
    }
}

// The same of points for names.
fn told_of<L: Ledger>(
    alloc: Global,
    points: &Points,
    tracked: &Tracked,
    at: Point,
    row: &str,
    steps: &mut Steps<L>,
) -> Result<Vec<u8>, RefuteRefusal>
    requires { IsRowText row.now }
    ensures { MatchResult result (λ text. IsTold points.now tracked.now.names at row.now text.items) (IsLateRefusal points.now tracked.now.names at row.now) }
{
    let program = match program_of(alloc, points, tracked) {
        Ok(program) => program,
        Err(refusal) => return Err(RefuteRefusal::File(refusal)),
    };
    let Some(node) = points.find(at.proc_entry, at.address) else {
        return Err(RefuteRefusal::NoSuchPoint(at.address));
    };
    points.known();
    seen_rows_are_visible();
    match read_row(row, tracked, at.proc_entry) {
        Err(refusal) => Err(RefuteRefusal::Row(refusal)),
        Ok(asked) => match answer_text(alloc, points, tracked, &program, node, &asked, steps) {
            Ok(text) => Ok(text),
            Err(_) => Err(RefuteRefusal::File(Refusal::Memory)),
        },
    }
}

// The text of the answer whether a row holds at a node.
fn answer_text<L: Ledger>(
    alloc: Global,
    points: &Points,
    tracked: &Tracked,
    program: &Program,
    node: u32,
    row: &Row<17>,
    steps: &mut Steps<L>,
) -> Result<Vec<u8>, Memory>
    requires program { HasProgram points.now tracked.now.names program.now }
    requires node { node < program.now.nodes }
    requires row { IsZeroOutside (with_constant (visible_in program.now (owner_of program.now node))) row.now }
    ensures { IfOk result (λ text. IsAnswerText points.now tracked.now.names program.now node row.now text.items) }
{
    points.known();
    lifted_calls_are_plain();
    let found = refute(alloc, program, node, row, steps)?;
    let answer = needed_alone(alloc, &found)?;
    match write_refuted(alloc, points, tracked, program, &answer) {
        Ok(text) => Ok(text),
        Err(_) => Err(Memory),
    }
}
