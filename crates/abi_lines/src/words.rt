//! Words of lines.

ghost use Rattle.std.specs.Prelude.{◌≡◌, ◌++◌, OnOk};
ghost use Rattle.abi_lines.specs.Lines.{register_text, number_text, known_text, kind_text, at_text, value_text, why_text, premise_text, number_of};

use abi_premises::Premise;
use abi_verdicts::Why;
use entry_values::{Kind, Value};
use number_text::{push_dec, push_hex};
use rv_decode::register_name;
use std::alloc::AllocError;

/// Appends the name of a register.
pub fn push_register(text: &mut Vec<u8>, r: u8) -> Result<(), AllocError>
    ensures { OnOk result (text.new.items ≡ text.old.items ++ register_text r) }
{
    if r < 32 {
        text.extend_from_slice(register_name(r).as_bytes())
    } else {
        text.extend_from_slice(b"x")?;
        push_dec(text, u64::from(r))
    }
}

/// Appends a signed number, with its sign.
pub fn push_number(text: &mut Vec<u8>, k: u64) -> Result<(), AllocError>
    ensures { OnOk result (text.new.items ≡ text.old.items ++ number_text k) }
{
    if k < 1 << 63 {
        text.extend_from_slice(b"+")?;
        push_dec(text, k)
    } else {
        text.extend_from_slice(b"-")?;
        push_dec(text, k.wrapping_neg())
    }
}

/// Appends a register's word of the entry and a number, or a word.
pub fn push_known(text: &mut Vec<u8>, b: u8, k: u64) -> Result<(), AllocError>
    ensures { OnOk result (text.new.items ≡ text.old.items ++ known_text b k) }
{
    if b == 0 {
        push_hex(text, k)
    } else {
        push_register(text, b)?;
        push_number(text, k)
    }
}

fn kind_text(kind: Kind) -> &'static str
    ensures { result.now ≡ kind_text kind }
{
    match kind {
        Kind::Computed => "computed",
        Kind::Loaded => "loaded",
        Kind::Narrow => "narrow",
        Kind::Unset => "unset",
        Kind::Overwritten => "overwritten",
        Kind::Environment => "ecall",
        Kind::Callee => "callee",
        Kind::Joined => "joined",
        Kind::Opaque => "opaque",
    }
}

fn push_at(text: &mut Vec<u8>, changed: u64, a: u64) -> Result<(), AllocError>
    ensures { OnOk result (text.new.items ≡ text.old.items ++ at_text changed a) }
{
    if changed == a {
        return Ok(());
    }
    text.extend_from_slice(b" ")?;
    push_hex(text, a)
}

pub(crate) fn push_value(text: &mut Vec<u8>, changed: u64, v: Value) -> Result<(), AllocError>
    ensures { OnOk result (text.new.items ≡ text.old.items ++ value_text changed v) }
{
    match v {
        Value::Is(b, k) => {
            text.extend_from_slice(b" is ")?;
            push_known(text, b, k)
        }
        Value::Any(a, kind) => {
            text.extend_from_slice(b" by ")?;
            text.extend_from_slice(kind_text(kind).as_bytes())?;
            push_at(text, changed, a)
        }
    }
}

pub(crate) fn push_why(text: &mut Vec<u8>, why: Why) -> Result<(), AllocError>
    ensures { OnOk result (text.new.items ≡ text.old.items ++ why_text why) }
{
    match why {
        Why::AtJump => text.extend_from_slice(b"jump"),
        Why::AtNoWord => text.extend_from_slice(b"no-instruction"),
        Why::AtLimit => text.extend_from_slice(b"too-many"),
        Why::Leaves => text.extend_from_slice(b"leaves"),
        Why::Called(q) => {
            text.extend_from_slice(b"callee ")?;
            push_hex(text, q)
        }
        Why::BehindCall => text.extend_from_slice(b"callee"),
        Why::Met => text.extend_from_slice(b"joined"),
        Why::LostSp => text.extend_from_slice(b"lost-sp"),
    }
}

pub(crate) fn premise_text(premise: Premise) -> &'static str
    ensures { result.now ≡ premise_text premise }
{
    match premise {
        Premise::Stores => "stores",
        Premise::Globals => "globals",
        Premise::Ecalls => "ecalls",
        Premise::Opaques => "opaque",
        Premise::Foreigns => "foreign",
        Premise::Tails => "tails",
        Premise::Tables => "tables",
        Premise::NoReturn => "noreturn",
        Premise::Stack => "stack",
        Premise::Above => "above",
        Premise::Partial => "partial",
        Premise::Exits => "leaves",
    }
}

/// The number of a premise, in the order in which premises are told.
pub fn number_of(premise: Premise) -> u64
    ensures { result ≡ number_of premise }
{
    match premise {
        Premise::Stores => 0,
        Premise::Globals => 1,
        Premise::Ecalls => 2,
        Premise::Opaques => 3,
        Premise::Foreigns => 4,
        Premise::Tails => 5,
        Premise::Tables => 6,
        Premise::NoReturn => 7,
        Premise::Stack => 8,
        Premise::Above => 9,
        Premise::Partial => 10,
        Premise::Exits => 11,
    }
}
