//! Quotients and remainders: by zero, all bits ones and the dividend.

ghost use Rattle.std.specs.Prelude.{◌≡◌};
ghost use Rattle.rv_instr.specs.declared.RegOp.TheVariants.{Div, Divu, Rem, Remu, Divw, Divuw, Remw, Remuw};
ghost use Rattle.rv_step.specs.Results.{reg_result};

use crate::words::{extended, low, signed_low};

pub(crate) fn div(a: u64, b: u64) -> u64
    ensures { result ≡ reg_result Div a b }
{
    if b == 0 {
        u64::MAX
    } else {
        a.cast_signed()
            .wrapping_div(b.cast_signed())
            .cast_unsigned()
    }
}

pub(crate) fn divu(a: u64, b: u64) -> u64
    ensures { result ≡ reg_result Divu a b }
{
    if b == 0 { u64::MAX } else { a / b }
}

pub(crate) fn rem(a: u64, b: u64) -> u64
    ensures { result ≡ reg_result Rem a b }
{
    if b == 0 {
        a
    } else {
        a.cast_signed()
            .wrapping_rem(b.cast_signed())
            .cast_unsigned()
    }
}

pub(crate) fn remu(a: u64, b: u64) -> u64
    ensures { result ≡ reg_result Remu a b }
{
    if b == 0 { a } else { a % b }
}

pub(crate) fn divw(a: u64, b: u64) -> u64
    ensures { result ≡ reg_result Divw a b }
{
    if low(b) == 0 {
        u64::MAX
    } else {
        extended(signed_low(a).wrapping_div(signed_low(b)).cast_unsigned())
    }
}

pub(crate) fn divuw(a: u64, b: u64) -> u64
    ensures { result ≡ reg_result Divuw a b }
{
    if low(b) == 0 {
        u64::MAX
    } else {
        extended(low(a) / low(b))
    }
}

pub(crate) fn remw(a: u64, b: u64) -> u64
    ensures { result ≡ reg_result Remw a b }
{
    if low(b) == 0 {
        extended(low(a))
    } else {
        extended(signed_low(a).wrapping_rem(signed_low(b)).cast_unsigned())
    }
}

pub(crate) fn remuw(a: u64, b: u64) -> u64
    ensures { result ≡ reg_result Remuw a b }
{
    if low(b) == 0 {
        extended(low(a))
    } else {
        extended(low(a) % low(b))
    }
}
