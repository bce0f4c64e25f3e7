//! The writer of answers. Each function appends one part of the text.

ghost use Rattle.std.specs.Prelude.{◌≡◌, ◌<◌, ◌≤◌, ◌++◌, length, All, IfOk, OnOk};
ghost use Rattle.number_text.specs.Numerals.{dec};
ghost use Rattle.report_text.specs.Names.{HasText};
ghost use Rattle.refute_text.specs.Text.{word_text, words_text, register_text, registers_text, start_line, path_line, value_line, slot_text, slots_text, place_text, end_text, deriv_text, line_text, lines_text, broken_text, refuted_text};
ghost use Rattle.refute_text.specs.Named.{IsNamed, IsSoundIn};

use affine_prog::Program;
use flow_points::Points;
use number_text::{push_dec, push_hex};
use refute_path::{Break, Deriv, Refuted};
use report_text::{Name, Tracked};
use rv_decode::register_name;
use std::alloc::{AllocError, Global};
use word_rows::Row;

/// The text of an answer over the program of these points with these names.
pub fn write_refuted(
    alloc: Global,
    points: &Points,
    tracked: &Tracked,
    program: &Program,
    answer: &Refuted,
) -> Result<Vec<u8>, AllocError>
    requires procs { length program.now.procs ≡ length points.now.procedures }
    requires sound { IsSoundIn program.now answer.now }
    ensures { IfOk result (λ text. text.items ≡ refuted_text points.now tracked.now.names program.now answer.now) }
{
    let mut text = Vec::from_slice(alloc, b"affine-refute 1\n")?;
    match answer {
        Refuted::Holds => text.extend_from_slice(b"holds\n")?,
        Refuted::Broken(found) => {
            push_broken(&mut text, points, tracked.names.as_slice(), program, found)?
        }
    }
    text.extend_from_slice(b"end\n")?;
    Ok(text)
}

fn push_broken(
    text: &mut Vec<u8>,
    points: &Points,
    names: &[Name],
    program: &Program,
    found: &Break,
) -> Result<(), AllocError>
    requires names { All HasText names.now }
    requires few { length names.now ≤ 16 }
    requires procs { length program.now.procs ≡ length points.now.procedures }
    requires named { All (IsNamed program.now) found.now.derivs }
    ensures { OnOk result (text.new.items ≡ text.old.items ++ broken_text points.now names.now program.now found.now) }
{
    text.extend_from_slice(b"broken\n")?;
    push_start(text, names, &found.start)?;
    push_lines(text, points, names, program, found.derivs.as_slice())?;
    push_path(text, found.path.as_slice())?;
    push_value(text, found.value)
}

fn push_start(text: &mut Vec<u8>, names: &[Name], start: &Row<17>) -> Result<(), AllocError>
    requires names { All HasText names.now }
    requires few { length names.now ≤ 16 }
    ensures { OnOk result (text.new.items ≡ text.old.items ++ start_line names.now start.now) }
{
    text.extend_from_slice(b"start")?;
    push_registers(text, names, start)?;
    text.extend_from_slice(b"\n")
}

// The registers among the names with their words.
fn push_registers(text: &mut Vec<u8>, names: &[Name], start: &Row<17>) -> Result<(), AllocError>
    requires names { All HasText names.now }
    requires few { length names.now ≤ 16 }
    ensures { OnOk result (text.new.items ≡ text.old.items ++ registers_text names.now start.now) }
{
    start.known();
    for (i, name) in names.iter().enumerate() {
        push_register(text, *name, start.get(i))?;
    }
    Ok(())
}

fn push_register(text: &mut Vec<u8>, name: Name, word: u64) -> Result<(), AllocError>
    requires { HasText name }
    ensures { OnOk result (text.new.items ≡ text.old.items ++ register_text name word) }
{
    let Name::Register(r) = name else {
        return Ok(());
    };
    text.extend_from_slice(b" ")?;
    text.extend_from_slice(register_name(r).as_bytes())?;
    text.extend_from_slice(b"=")?;
    push_dec(text, word)
}

// The lines of derivations.
fn push_lines(
    text: &mut Vec<u8>,
    points: &Points,
    names: &[Name],
    program: &Program,
    derivs: &[Deriv],
) -> Result<(), AllocError>
    requires few { length names.now ≤ 16 }
    requires procs { length program.now.procs ≡ length points.now.procedures }
    requires named { All (IsNamed program.now) derivs.now }
    ensures { OnOk result (text.new.items ≡ text.old.items ++ lines_text points.now names.now program.now 1 derivs.now) }
{
    for (i, deriv) in derivs.iter().enumerate() {
        push_line(text, points, names, program, i as u64 + 1, deriv)?;
    }
    Ok(())
}

fn push_line(
    text: &mut Vec<u8>,
    points: &Points,
    names: &[Name],
    program: &Program,
    number: u64,
    deriv: &Deriv,
) -> Result<(), AllocError>
    requires few { length names.now ≤ 16 }
    requires procs { length program.now.procs ≡ length points.now.procedures }
    requires named { IsNamed program.now deriv.now }
    ensures { OnOk result (text.new.items ≡ text.old.items ++ line_text points.now names.now program.now number deriv.now) }
{
    push_dec(text, number)?;
    push_deriv(text, points, names, program, deriv)?;
    text.extend_from_slice(b"\n")
}

fn push_deriv(
    text: &mut Vec<u8>,
    points: &Points,
    names: &[Name],
    program: &Program,
    deriv: &Deriv,
) -> Result<(), AllocError>
    requires few { length names.now ≤ 16 }
    requires procs { length program.now.procs ≡ length points.now.procedures }
    requires named { IsNamed program.now deriv.now }
    ensures { OnOk result (text.new.items ≡ text.old.items ++ deriv_text points.now names.now program.now deriv.now) }
{
    match deriv {
        Deriv::Opening { proc, slots } => {
            let procedure = points.procedures()[*proc as usize];
            text.extend_from_slice(b" open ")?;
            push_hex(text, procedure)?;
            push_slots(text, procedure, names, slots)
        }
        Deriv::Step {
            before,
            edge,
            choice,
        } => {
            push_numbered(text, b" step ", *before)?;
            push_end(text, points, program, *edge)?;
            push_words(text, choice.as_slice())
        }
        Deriv::Call {
            before,
            edge,
            callee,
        } => {
            push_numbered(text, b" call ", *before)?;
            push_word(text, u64::from(*callee))?;
            push_end(text, points, program, *edge)
        }
    }
}

fn push_numbered(text: &mut Vec<u8>, word: &[u8], number: u32) -> Result<(), AllocError>
    ensures { OnOk result (text.new.items ≡ text.old.items ++ word.now ++ dec number) }
{
    text.extend_from_slice(word)?;
    push_dec(text, u64::from(number))
}

// The words of the slots that the procedure has among the names.
fn push_slots(
    text: &mut Vec<u8>,
    procedure: u64,
    names: &[Name],
    slots: &Row<17>,
) -> Result<(), AllocError>
    requires few { length names.now ≤ 16 }
    ensures { OnOk result (text.new.items ≡ text.old.items ++ slots_text procedure names.now slots.now) }
{
    slots.known();
    for (i, name) in names.iter().enumerate() {
        push_slot(text, procedure, *name, slots.get(i))?;
    }
    Ok(())
}

fn push_slot(text: &mut Vec<u8>, procedure: u64, name: Name, word: u64) -> Result<(), AllocError>
    ensures { OnOk result (text.new.items ≡ text.old.items ++ slot_text procedure name word) }
{
    match name {
        Name::Slot { proc_entry, .. } if proc_entry == procedure => push_word(text, word),
        _ => Ok(()),
    }
}

// Where an edge ends.
fn push_end(
    text: &mut Vec<u8>,
    points: &Points,
    program: &Program,
    edge: u32,
) -> Result<(), AllocError>
    requires { edge < length program.now.edges }
    ensures { OnOk result (text.new.items ≡ text.old.items ++ end_text points.now program.now edge) }
{
    let to = program.edges.as_slice()[edge as usize].to;
    text.extend_from_slice(b" ")?;
    push_place(text, points, to)
}

fn push_place(text: &mut Vec<u8>, points: &Points, node: u32) -> Result<(), AllocError>
    ensures { OnOk result (text.new.items ≡ text.old.items ++ place_text points.now node) }
{
    if node < points.count() {
        push_hex(text, points.point(node).address)
    } else {
        text.extend_from_slice(b"exit")
    }
}

fn push_path(text: &mut Vec<u8>, path: &[u32]) -> Result<(), AllocError>
    ensures { OnOk result (text.new.items ≡ text.old.items ++ path_line path.now) }
{
    text.extend_from_slice(b"path")?;
    push_numbers(text, path)?;
    text.extend_from_slice(b"\n")
}

fn push_value(text: &mut Vec<u8>, value: u64) -> Result<(), AllocError>
    ensures { OnOk result (text.new.items ≡ text.old.items ++ value_line value) }
{
    text.extend_from_slice(b"value ")?;
    push_dec(text, value)?;
    text.extend_from_slice(b"\n")
}

fn push_words(text: &mut Vec<u8>, words: &[u64]) -> Result<(), AllocError>
    ensures { OnOk result (text.new.items ≡ text.old.items ++ words_text words.now) }
{
    for word in words {
        push_word(text, *word)?;
    }
    Ok(())
}

fn push_numbers(text: &mut Vec<u8>, numbers: &[u32]) -> Result<(), AllocError>
    ensures { OnOk result (text.new.items ≡ text.old.items ++ words_text numbers.now) }
{
    for number in numbers {
        push_word(text, u64::from(*number))?;
    }
    Ok(())
}

fn push_word(text: &mut Vec<u8>, word: u64) -> Result<(), AllocError>
    ensures { OnOk result (text.new.items ≡ text.old.items ++ word_text word) }
{
    text.extend_from_slice(b" ")?;
    push_dec(text, word)
}
