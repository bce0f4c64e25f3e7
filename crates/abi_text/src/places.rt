//! What is told of a point of a table.

ghost use Rattle.std.specs.Prelude.{◌≡◌, ◌++◌, option_copied, IfOk, IfSome, OnOk};
ghost use Rattle.rv_decode.specs.Instructions.{IsWellFormed};
ghost use Rattle.entry_tables.specs.Settling.{AreLined, IsLined, point_at, line_of};
ghost use Rattle.abi_text.specs.Places.{word_at, line_text, instr_at, slot_in, slot_under, slot_on, slot_by, slot_at, is_loaded_kind, is_loaded, has_loaded, callee_of, callee_by, callee_at, is_branch, is_turned, turned_at};

use elf_image::Image;
use entry_tables::{Line, Point, Rows, flow_at};
use entry_values::{Flow, Kind, Value, plus};
use entry_walks::value_in;
use rv_decode::Instr;
use rv_text::{push_word, write_instr};
use std::alloc::{AllocError, Global};

/// The first point of an address of a procedure.
fn point_at(points: &[Point], p: u64, a: u64) -> Option<&Point>
    ensures { option_copied result ≡ point_at points.now p a }
{
    for point in points {
        if point.procedure == p && point.address == a {
            return Some(point);
        }
    }
    None
}

// The instruction of that point.
fn line_in(image: &Image, rows: &Rows, p: u64, a: u64) -> Option<Line>
    requires { AreLined image.now rows.now.points }
    ensures line { result ≡ line_of (point_at rows.now.points p a) }
    ensures formed { IfSome result (λ line. IsWellFormed line.instr) }
{
    let _ = image;
    match point_at(rows.points.as_slice(), p, a) {
        Some(point) => point.line,
        None => None,
    }
}

fn push_word_at(text: &mut Vec<u8>, image: &Image, a: u64) -> Result<(), AllocError>
    ensures { OnOk result (text.new.items ≡ text.old.items ++ word_at image.now a) }
{
    match image.code_at(a) {
        Some(at) => {
            text.extend_from_slice(b"word ")?;
            push_word(text, at.word, at.length)
        }
        None => text.extend_from_slice(b"-"),
    }
}

fn push_line(
    alloc: Global,
    text: &mut Vec<u8>,
    image: &Image,
    a: u64,
    line: Option<Line>,
) -> Result<(), AllocError>
    requires { IfSome line (λ line. IsWellFormed line.instr) }
    ensures { OnOk result (text.new.items ≡ text.old.items ++ line_text image.now a line) }
{
    match line {
        Some(line) => {
            let written = write_instr(alloc, &line.instr)?;
            text.extend_from_slice(written.as_bytes())
        }
        None => push_word_at(text, image, a),
    }
}

/// Appends the instruction at a point.
pub(crate) fn push_instr(
    alloc: Global,
    text: &mut Vec<u8>,
    image: &Image,
    rows: &Rows,
    p: u64,
    a: u64,
) -> Result<(), AllocError>
    requires { AreLined image.now rows.now.points }
    ensures { OnOk result (text.new.items ≡ text.old.items ++ instr_at image.now rows.now p a) }
{
    let line = line_in(image, rows, p, a);
    push_line(alloc, text, image, a, line)
}

fn slot_in(v: Value) -> Option<u64>
    ensures { result ≡ slot_in v }
{
    match v {
        Value::Is(b, k) if b == 2 => Some(k),
        _ => None,
    }
}

fn slot_under(values: &[Value], instr: Instr) -> Option<u64>
    ensures { result ≡ slot_under values.now instr }
{
    match instr {
        Instr::Load { rs1, imm, .. } => slot_in(plus(value_in(values, rs1), imm)),
        _ => None,
    }
}

fn slot_on(values: &[Value], line: Option<Line>) -> Option<u64>
    ensures { result ≡ slot_on values.now line }
{
    match line {
        Some(line) => slot_under(values, line.instr),
        None => None,
    }
}

fn slot_by(point: &Point) -> Option<u64>
    ensures { result ≡ slot_by point.now }
{
    slot_on(&point.state.values, point.line)
}

/// The offset of the slot that is loaded from at a point, as far as it is known.
pub(crate) fn slot_at(rows: &Rows, p: u64, a: u64) -> Option<u64>
    ensures { result ≡ slot_at rows.now p a }
{
    match point_at(rows.points.as_slice(), p, a) {
        Some(point) => slot_by(point),
        None => None,
    }
}

fn is_loaded_kind(kind: Kind) -> bool
    ensures { result ≡ is_loaded_kind kind }
{
    matches!(kind, Kind::Loaded)
}

fn is_loaded(v: Value) -> bool
    ensures { result ≡ is_loaded v }
{
    match v {
        Value::Any(_, kind) => is_loaded_kind(kind),
        Value::Is(_, _) => false,
    }
}

/// Whether ra was loaded from no slot, at a point.
pub(crate) fn has_loaded(rows: &Rows, p: u64, a: u64) -> bool
    ensures { result ≡ has_loaded rows.now p a }
{
    match point_at(rows.points.as_slice(), p, a) {
        Some(point) => is_loaded(value_in(&point.state.values, 1)),
        None => false,
    }
}

fn callee_of(flow: &Flow) -> Option<u64>
    ensures { result ≡ callee_of flow.now }
{
    match flow {
        Flow::CallTo(q, _) => Some(*q),
        _ => None,
    }
}

fn callee_by(
    alloc: Global,
    image: &Image,
    rows: &Rows,
    point: &Point,
) -> Result<Option<u64>, AllocError>
    requires { IsLined image.now point.now }
    ensures { IfOk result (λ q. q ≡ callee_by image.now rows.now point.now) }
{
    let guesses = rows.guesses.as_slice();
    let (a, line) = (point.address, point.line);
    match flow_at(alloc, image, guesses, a, line, point.marked, &point.state) {
        Ok(flow) => Ok(callee_of(&flow)),
        Err(_) => Err(AllocError),
    }
}

/// The procedure that is called at a point.
pub(crate) fn callee_at(
    alloc: Global,
    image: &Image,
    rows: &Rows,
    p: u64,
    a: u64,
) -> Result<Option<u64>, AllocError>
    requires { AreLined image.now rows.now.points }
    ensures { IfOk result (λ q. q ≡ callee_at image.now rows.now p a) }
{
    match point_at(rows.points.as_slice(), p, a) {
        Some(point) => callee_by(alloc, image, rows, point),
        None => Ok(None),
    }
}

fn is_branch(instr: Instr) -> bool
    ensures { result ≡ is_branch instr }
{
    match instr {
        Instr::Branch { .. } => true,
        _ => false,
    }
}

fn is_turned(line: Option<Line>, a: u64, b: u64) -> bool
    ensures { result ≡ is_turned line a b }
{
    match line {
        Some(line) => is_branch(line.instr) && b != a.wrapping_add(u64::from(line.length)),
        None => false,
    }
}

/// Whether the way from a branch goes to b, which isn't behind it.
pub(crate) fn turned_at(image: &Image, rows: &Rows, p: u64, a: u64, b: u64) -> bool
    requires { AreLined image.now rows.now.points }
    ensures { result ≡ turned_at rows.now p a b }
{
    is_turned(line_in(image, rows, p, a), a, b)
}
