//! A word that isn't 0 is a power of two times an odd word, and an odd word has an inverse.

ghost use Rattle.std.specs.Prelude.{◌≡◌, ◌≢◌, ◌<◌, ◌*◌, ◌^◌, ◌%◌};
ghost use Rattle.word_rows.specs.Words.{word};

/// The exponent t and the odd word u with w = 2^t * u.
pub fn odd_part(w: u64) -> (u32, u64)
    requires { w ≢ 0 }
    ensures product { w ≡ 2 ^ result.0 * result.1 }
    ensures odd { result.1 % 2 ≡ 1 }
    ensures small { result.0 < 64 }
{
    let zeros = w.trailing_zeros();
    (zeros, w >> zeros)
}

/// The one word whose product with u wraps to 1.
pub fn inverse(u: u64) -> u64
    requires { u % 2 ≡ 1 }
    ensures { word (u * result) ≡ 1 }
{
    // Each turn of Newton's step doubles the number of low bits at which u * x is 1.
    let mut x = 1u64;
    for _ in 0..6u64 {
        x = x.wrapping_mul(2u64.wrapping_sub(u.wrapping_mul(x)));
    }
    x
}
