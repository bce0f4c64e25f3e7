//! Words and their low halves.

ghost use Rattle.std.specs.Prelude.{◌≡◌, pos};
ghost use Rattle.rv_step.specs.Words.{word, low, signed_low, sign_extended};

/// A signed number as a word.
pub(crate) fn word(z: i32) -> u64
    ensures { result ≡ word z }
{
    i64::from(z).cast_unsigned()
}

/// The low 32 bits.
pub(crate) fn low(a: u64) -> u32
    ensures { result ≡ low a }
{
    (a % (1 << 32)) as u32
}

/// The low 32 bits, read as signed.
pub(crate) fn signed_low(a: u64) -> i32
    ensures { result ≡ signed_low a }
{
    low(a).cast_signed()
}

/// The 32 bits, extended by their sign.
pub(crate) fn extended(bits: u32) -> u64
    ensures { result ≡ sign_extended (pos bits) }
{
    i64::from(bits.cast_signed()).cast_unsigned()
}
