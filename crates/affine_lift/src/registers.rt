//! What instructions give to registers.

ghost use Rattle.std.specs.Prelude.{◌≡◌, ◌≤◌, ◌<◌, ◌^◌, length};
ghost use Rattle.affine_lift.specs.Values.{upper, term, multiple, constant, beside_zero, imm_value, shift_value, reg_value, link_value, is_register, place_of, factor_at, coefficient, factor_of, is_nameable, row_of, IsHeldIn, assigned};

use crate::value::{Term, Value};
use affine_prog::Assign;
use flow_points::Flow;
use report_text::Name;
use rv_decode::{ImmOp, RegOp, ShiftOp};
use word_rows::Row;

const NO_TERM: Term = Term {
    factor: 0,
    register: 0,
};

/// The position of a register, if it is tracked.
pub fn place_of(names: &[Name], register: u8) -> Option<usize>
    ensures { result ≡ place_of names.now register }
{
    names.iter().position(|name| is_register(register, name))
}

fn is_register(register: u8, name: &Name) -> bool
    ensures { result ≡ is_register register name.now }
{
    match *name {
        Name::Register(tracked) => tracked == register,
        Name::Slot { .. } => false,
    }
}

/// The assignment of a value to the name at a position.
pub fn assigned(names: &[Name], place: usize, value: Value) -> Assign
    requires few { length names.now ≤ 16 }
    requires place { place < 16 }
    requires held { IsHeldIn names.now value }
    ensures { result ≡ assigned names.now place value }
{
    match value {
        Value::Linear {
            first,
            second,
            constant,
        } if is_nameable(names, first, second, first)
            && is_nameable(names, first, second, second) => {
            Assign::Affine(place as u8, row_of(names, first, second, constant))
        }
        Value::Held(position) => Assign::Affine(place as u8, Row::zero().with(position, 1)),
        _ => Assign::Any(place as u8),
    }
}

fn is_nameable(names: &[Name], first: Term, second: Term, term: Term) -> bool
    ensures { result ≡ is_nameable names.now first second term }
{
    term.register == 0
        || place_of(names, term.register).is_some()
        || coefficient(first, second, term.register) == 0
}

fn coefficient(first: Term, second: Term, register: u8) -> u64
    ensures { result ≡ coefficient first second register }
{
    factor_at(first, register).wrapping_add(factor_at(second, register))
}

fn factor_at(term: Term, register: u8) -> u64
    ensures { result ≡ factor_at term register }
{
    if term.register == register {
        term.factor
    } else {
        0
    }
}

fn factor_of(first: Term, second: Term, name: Name) -> u64
    ensures { result ≡ factor_of first second name }
{
    match name {
        Name::Register(register) => coefficient(first, second, register),
        Name::Slot { .. } => 0,
    }
}

// The row of a sum over tracked registers.
fn row_of(names: &[Name], first: Term, second: Term, constant: u64) -> Row<17>
    requires { length names.now ≤ 16 }
    ensures { result ≡ row_of names.now first second constant }
{
    let mut row = Row::zero().with(16, constant);
    for (i, name) in names.iter().enumerate() {
        row = row.with(i, factor_of(first, second, *name));
    }
    row
}

/// The value of an operation with an immediate.
pub fn imm_value(op: ImmOp, rs1: u8, imm: i32) -> Value
    ensures { result ≡ imm_value op rs1 imm }
{
    match (op, imm) {
        (ImmOp::Addi, _) => Value::Linear {
            first: Term {
                factor: 1,
                register: rs1,
            },
            second: NO_TERM,
            constant: i64::from(imm).cast_unsigned(),
        },
        (ImmOp::Xori, -1) => Value::Linear {
            first: Term {
                factor: u64::MAX,
                register: rs1,
            },
            second: NO_TERM,
            constant: u64::MAX,
        },
        _ => Value::Unknown,
    }
}

/// The value of a shift by a constant.
pub fn shift_value(op: ShiftOp, rs1: u8, by: u8) -> Value
    requires { by < 64 }
    ensures { result ≡ shift_value op rs1 by }
{
    match op {
        ShiftOp::Slli => multiple(1 << by, rs1),
        _ => Value::Unknown,
    }
}

/// The value of an operation of two registers.
pub fn reg_value(op: RegOp, rs1: u8, rs2: u8) -> Value
    ensures { result ≡ reg_value op rs1 rs2 }
{
    match op {
        RegOp::Add => sum(rs1, 1, rs2),
        RegOp::Sub => sum(rs1, u64::MAX, rs2),
        RegOp::Or | RegOp::Xor => match beside_zero(rs1, rs2) {
            Some(register) => multiple(1, register),
            None => Value::Unknown,
        },
        RegOp::And | RegOp::Mul => match beside_zero(rs1, rs2) {
            Some(_) => constant(0),
            None => Value::Unknown,
        },
        _ => Value::Unknown,
    }
}

/// The value of a link: the address behind the call.
pub fn link_value(flow: Flow) -> Value
    ensures { result ≡ link_value flow }
{
    match flow {
        Flow::Call { next, .. } => constant(next),
        _ => Value::Unknown,
    }
}

fn beside_zero(a: u8, b: u8) -> Option<u8>
    ensures { result ≡ beside_zero a b }
{
    if b == 0 {
        Some(a)
    } else if a == 0 {
        Some(b)
    } else {
        None
    }
}

fn sum(first: u8, factor: u64, second: u8) -> Value
    ensures { result ≡ Value.Linear (term 1 first) (term factor second) 0 }
{
    Value::Linear {
        first: Term {
            factor: 1,
            register: first,
        },
        second: Term {
            factor,
            register: second,
        },
        constant: 0,
    }
}

/// The value of a factor times a register.
pub fn multiple(factor: u64, register: u8) -> Value
    ensures { result ≡ multiple factor register }
{
    Value::Linear {
        first: Term { factor, register },
        second: NO_TERM,
        constant: 0,
    }
}

/// The value of a constant.
pub fn constant(word: u64) -> Value
    ensures { result ≡ constant word }
{
    Value::Linear {
        first: NO_TERM,
        second: NO_TERM,
        constant: word,
    }
}

/// The value of the immediate of LUI and AUIPC.
pub fn upper(imm: u32) -> u64
    ensures { result ≡ upper imm }
{
    i64::from(imm.wrapping_mul(4096).cast_signed()).cast_unsigned()
}
