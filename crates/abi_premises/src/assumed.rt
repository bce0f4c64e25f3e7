//! What is assumed of runs, point by point.

ghost use Rattle.std.specs.Prelude.{◌≡◌, ◌<◌, ◌^◌, ◌++◌, length, Some, slice_get, IfOk, OnOk};
ghost use Rattle.entry_tables.specs.Settling.{AreLined, IsLined};
ghost use Rattle.entry_runs.specs.Premises.{own_at, is_own_below};
ghost use Rattle.abi_premises.specs.Assumed.{is_number, store_premise, premise_of, line_premise, opaque_premise, flow_premise, sp_premise, stack_premise, assumed_if, assumed_by, assumed_at, assumed_in};

use crate::premises::{Assumption, Premise};
use elf_image::Image;
use entry_tables::{Line, Point, Rows, flow_at, is_silent};
use entry_values::{Flow, Memory, State, Value, is_below, plus, store_width};
use entry_walks::value_in;
use opaque_words::Row;
use rv_decode::Instr;
use sqlite_items::Items;
use std::alloc::Global;

/// What is assumed at the points of a table, in their order.
pub fn assumptions(alloc: Global, image: &Image, rows: &Rows) -> Result<Items<Assumption>, Memory>
    requires { AreLined image.now rows.now.points }
    ensures { IfOk result (λ all. all ≡ assumed_in image.now rows.now rows.now.points) }
{
    let mut all = Items::new(alloc);
    let mut i = 0;
    while i < rows.points.len() {
        add_by_number(alloc, image, rows, &mut all, i)?;
        i += 1;
    }
    Ok(all)
}

fn add_by_number(
    alloc: Global,
    image: &Image,
    rows: &Rows,
    all: &mut Items<Assumption>,
    i: usize,
) -> Result<(), Memory>
    requires within { i < length rows.now.points }
    requires lined { AreLined image.now rows.now.points }
    ensures { OnOk result ((point : _) → slice_get rows.now.points i ≡ Some point → all.new ≡ all.old ++ assumed_at image.now rows.now point) }
{
    add_at(alloc, image, rows, all, &rows.points.as_slice()[i])
}

fn add_at(
    alloc: Global,
    image: &Image,
    rows: &Rows,
    all: &mut Items<Assumption>,
    point: &Point,
) -> Result<(), Memory>
    requires { IsLined image.now point.now }
    ensures { OnOk result (all.new ≡ all.old ++ assumed_at image.now rows.now point.now) }
{
    let flow = flow_at(
        alloc,
        image,
        rows.guesses.as_slice(),
        point.address,
        point.line,
        point.marked,
        &point.state,
    )?;
    add_by(rows, all, point, &flow)
}

fn add_by(
    rows: &Rows,
    all: &mut Items<Assumption>,
    point: &Point,
    flow: &Flow,
) -> Result<(), Memory>
    ensures { OnOk result (all.new ≡ all.old ++ assumed_by rows.now point.now flow.now) }
{
    add_if(all, point, flow_premise(rows, point, flow))?;
    add_if(
        all,
        point,
        stack_premise(value_in(&point.state.values, 2), flow),
    )
}

fn add_if(
    all: &mut Items<Assumption>,
    point: &Point,
    premise: Option<Premise>,
) -> Result<(), Memory>
    ensures { OnOk result (all.new ≡ all.old ++ assumed_if point.now premise) }
{
    let Some(premise) = premise else {
        return Ok(());
    };
    let assumption = Assumption {
        premise,
        procedure: point.procedure,
        address: point.address,
    };
    match all.push(assumption) {
        Ok(()) => Ok(()),
        Err(_) => Err(Memory),
    }
}

fn flow_premise(rows: &Rows, point: &Point, flow: &Flow) -> Option<Premise>
    ensures { result ≡ flow_premise rows.now point.now flow.now }
{
    match flow {
        Flow::On(_, _) => line_premise(point.line, &point.state),
        Flow::ByTable(_) => Some(Premise::Tables),
        Flow::CallTo(_, _) if is_silent(rows.silent.as_slice(), point.address) => Some(
            Premise::NoReturn,
        ),
        Flow::Foreign(_) => Some(Premise::Foreigns),
        Flow::Past(row, _, _) => opaque_premise(*row, &point.state),
        Flow::TailOut => Some(Premise::Tails),
        Flow::Leave => Some(Premise::Exits),
        Flow::Stuck => Some(Premise::Partial),
        _ => None,
    }
}

fn line_premise(line: Option<Line>, s: &State) -> Option<Premise>
    ensures { result ≡ line_premise line s.now }
{
    match line {
        Some(line) => premise_of(line.instr, s),
        None => None,
    }
}

fn premise_of(instr: Instr, s: &State) -> Option<Premise>
    ensures { result ≡ premise_of instr s.now }
{
    match instr {
        Instr::Store { op, rs1, imm, .. } => store_premise(
            store_width(op),
            plus(value_in(&s.values, rs1), imm),
        ),
        Instr::Ecall => Some(Premise::Ecalls),
        _ => None,
    }
}

fn store_premise(w: u64, v: Value) -> Option<Premise>
    requires { w < 2 ^ 63 }
    ensures { result ≡ store_premise w v }
{
    if is_own_below(w, v) {
        None
    } else if is_number(v) {
        Some(Premise::Globals)
    } else {
        Some(Premise::Stores)
    }
}

fn is_own_below(w: u64, v: Value) -> bool
    requires { w < 2 ^ 63 }
    ensures { result ≡ is_own_below (own_at w v) }
{
    match v {
        Value::Is(2, o) => is_below(o, w),
        _ => false,
    }
}

fn is_number(v: Value) -> bool
    ensures { result ≡ is_number v }
{
    match v {
        Value::Is(b, _) => b == 0,
        Value::Any(_, _) => false,
    }
}

fn opaque_premise(row: Row, s: &State) -> Option<Premise>
    ensures { result ≡ opaque_premise row s.now }
{
    let place = plus(value_in(&s.values, row.base), row.imm);
    if row.width == 0 || is_own_below(u64::from(row.width), place) {
        None
    } else {
        Some(Premise::Opaques)
    }
}

fn stack_premise(v: Value, flow: &Flow) -> Option<Premise>
    ensures { result ≡ stack_premise v flow.now }
{
    match flow {
        Flow::CallTo(_, _) => sp_premise(v),
        _ => None,
    }
}

fn sp_premise(v: Value) -> Option<Premise>
    ensures { result ≡ sp_premise v }
{
    match v {
        Value::Is(2, k) if k == 0 || k >= 1 << 63 => None,
        Value::Is(2, _) => Some(Premise::Above),
        _ => Some(Premise::Stack),
    }
}
