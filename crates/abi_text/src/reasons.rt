//! Words for values and causes.

ghost use Rattle.std.specs.Prelude.{◌≡◌, ◌++◌, OnOk};
ghost use Rattle.entry_tables.specs.Settling.{AreLined};
ghost use Rattle.abi_text.specs.Places.{callee_at};
ghost use Rattle.abi_text.specs.Findings.{slot_words, slot_text, kind_words, by_text, value_words, leaves_words, callee_words, called_words, why_words, why_number, same_cause};

use crate::names::push_label;
use crate::places::{callee_at, has_loaded, push_instr, slot_at};
use abi_lines::{push_known, push_number};
use abi_verdicts::{Cause, Why};
use elf_image::{Image, Symbol};
use entry_tables::Rows;
use entry_values::{Kind, Value};
use number_text::push_hex;
use std::alloc::{AllocError, Global};

fn push_slot(text: &mut Vec<u8>, slot: Option<u64>) -> Result<(), AllocError>
    ensures { OnOk result (text.new.items ≡ text.old.items ++ slot_words slot) }
{
    let Some(o) = slot else {
        return Ok(());
    };
    text.extend_from_slice(b"from slot ")?;
    push_number(text, o)?;
    text.extend_from_slice(b", ")
}

fn push_slot_at(text: &mut Vec<u8>, rows: &Rows, p: u64, a: u64) -> Result<(), AllocError>
    ensures { OnOk result (text.new.items ≡ text.old.items ++ slot_text rows.now p a) }
{
    push_slot(text, slot_at(rows, p, a))
}

fn kind_words(kind: Kind) -> &'static str
    ensures { result.now ≡ kind_words kind }
{
    match kind {
        Kind::Computed => "computed",
        Kind::Loaded => "loaded from no slot",
        Kind::Narrow => "a part of a word",
        Kind::Unset => "never set",
        Kind::Overwritten => "overwritten",
        Kind::Environment => "from the environment",
        Kind::Callee => "not kept by a callee",
        Kind::Joined => "from ways that meet",
        Kind::Opaque => "from an opaque instruction",
    }
}

fn push_by(
    alloc: Global,
    text: &mut Vec<u8>,
    image: &Image,
    rows: &Rows,
    p: u64,
    changed: u64,
    a: u64,
) -> Result<(), AllocError>
    requires { AreLined image.now rows.now.points }
    ensures { OnOk result (text.new.items ≡ text.old.items ++ by_text image.now rows.now p changed a) }
{
    if changed == a {
        return Ok(());
    }
    text.extend_from_slice(b" at ")?;
    push_hex(text, a)?;
    text.extend_from_slice(b" by ")?;
    push_instr(alloc, text, image, rows, p, a)
}

/// Appends the value at a return, of a register that was changed last at `changed`.
pub(crate) fn push_value_words(
    alloc: Global,
    text: &mut Vec<u8>,
    image: &Image,
    rows: &Rows,
    p: u64,
    changed: u64,
    v: Value,
) -> Result<(), AllocError>
    requires { AreLined image.now rows.now.points }
    ensures { OnOk result (text.new.items ≡ text.old.items ++ value_words image.now rows.now p changed v) }
{
    match v {
        Value::Is(b, k) => {
            text.extend_from_slice(b"is ")?;
            push_known(text, b, k)
        }
        Value::Any(a, kind) => {
            push_slot_at(text, rows, p, changed)?;
            text.extend_from_slice(kind_words(kind).as_bytes())?;
            push_by(alloc, text, image, rows, p, changed, a)
        }
    }
}

fn leaves_words(loaded: bool) -> &'static str
    ensures { result.now ≡ leaves_words loaded }
{
    if loaded {
        "goes to a loaded address: a context is restored"
    } else {
        "returns by another word in ra"
    }
}

fn push_callee(
    text: &mut Vec<u8>,
    symbols: &[Symbol],
    callee: Option<u64>,
) -> Result<(), AllocError>
    ensures { OnOk result (text.new.items ≡ text.old.items ++ callee_words symbols.now callee) }
{
    match callee {
        Some(q) => {
            text.extend_from_slice(b"not kept by ")?;
            push_label(text, symbols, q)
        }
        None => text.extend_from_slice(b"not kept by a callee"),
    }
}

fn push_callee_at(
    alloc: Global,
    text: &mut Vec<u8>,
    image: &Image,
    rows: &Rows,
    p: u64,
    a: u64,
) -> Result<(), AllocError>
    requires { AreLined image.now rows.now.points }
    ensures { OnOk result (text.new.items ≡ text.old.items ++ callee_words image.now.symbols (callee_at image.now rows.now p a)) }
{
    let callee = callee_at(alloc, image, rows, p, a)?;
    push_callee(text, image.symbols.as_slice(), callee)
}

fn push_called(text: &mut Vec<u8>, symbols: &[Symbol], q: u64) -> Result<(), AllocError>
    ensures { OnOk result (text.new.items ≡ text.old.items ++ called_words symbols.now q) }
{
    text.extend_from_slice(b"a call of ")?;
    push_label(text, symbols, q)?;
    text.extend_from_slice(b", which doesn't come back")
}

/// Appends a cause.
pub(crate) fn push_why_words(
    alloc: Global,
    text: &mut Vec<u8>,
    image: &Image,
    rows: &Rows,
    p: u64,
    a: u64,
    why: Why,
) -> Result<(), AllocError>
    requires { AreLined image.now rows.now.points }
    ensures { OnOk result (text.new.items ≡ text.old.items ++ why_words image.now rows.now p a why) }
{
    match why {
        Why::AtJump => text.extend_from_slice(b"a jump that isn't followed"),
        Why::AtNoWord => text.extend_from_slice(b"a word that isn't known"),
        Why::AtLimit => text.extend_from_slice(b"more points than are followed"),
        Why::Leaves => text.extend_from_slice(leaves_words(has_loaded(rows, p, a)).as_bytes()),
        Why::Called(q) => push_called(text, image.symbols.as_slice(), q),
        Why::BehindCall => push_callee_at(alloc, text, image, rows, p, a),
        Why::Met => text.extend_from_slice(b"ways meet, and none alone shows a fault"),
        Why::LostSp => text.extend_from_slice(b"sp isn't known from here on"),
    }
}

fn why_number(why: Why) -> u64
    ensures { result ≡ why_number why }
{
    match why {
        Why::AtJump => 0,
        Why::AtNoWord => 1,
        Why::AtLimit => 2,
        Why::Leaves => 3,
        Why::Called(_) => 4,
        Why::BehindCall => 5,
        Why::Met => 6,
        Why::LostSp => 7,
    }
}

/// Whether two causes are the same.
pub(crate) fn same_cause(c: Cause, d: Cause) -> bool
    ensures { result ≡ same_cause c d }
{
    c.address == d.address && why_number(c.why) == why_number(d.why)
}
