//! The high words of products.

ghost use Rattle.std.specs.Prelude.{◌≡◌};
ghost use Rattle.rv_instr.specs.declared.RegOp.TheVariants.{Mulh, Mulhsu, Mulhu};
ghost use Rattle.rv_step.specs.Words.{halved, signed, word};
ghost use Rattle.rv_step.specs.Results.{reg_result};

/// Signed by signed.
pub(crate) fn mulh(a: u64, b: u64) -> u64
    ensures { result ≡ reg_result Mulh a b }
{
    high_word(signed(a) * signed(b))
}

/// Signed by unsigned.
pub(crate) fn mulhsu(a: u64, b: u64) -> u64
    ensures { result ≡ reg_result Mulhsu a b }
{
    high_word(signed(a) * i128::from(b))
}

/// Unsigned by unsigned.
pub(crate) fn mulhu(a: u64, b: u64) -> u64
    ensures { result ≡ reg_result Mulhu a b }
{
    ((u128::from(a) * u128::from(b)) >> 64) as u64
}

// The word read as signed.
fn signed(a: u64) -> i128
    ensures { result ≡ signed a }
{
    i128::from(a.cast_signed())
}

// The high word of a product.
fn high_word(product: i128) -> u64
    ensures { result ≡ word (halved product 64) }
{
    ((product >> 64) as i64).cast_unsigned()
}
