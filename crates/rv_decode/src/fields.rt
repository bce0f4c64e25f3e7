//! The fields of instruction words, at the places that the layouts share.

ghost use Rattle.std.specs.Prelude.{◌≡◌, ◌*◌, ◌<◌, ◌≤◌, ◌^◌};
ghost use Rattle.rv_decode.specs.Layouts.{bits_at, IsSigned, IsI, IsS, IsB, IsU, IsJ};

// The `width` bits of `word` from bit `low` on.
pub(crate) fn field(word: u32, low: u32, width: u32) -> u32
    requires low { low < 32 }
    requires width { width < 32 }
    ensures { result ≡ bits_at word low width }
{
    (word >> low) % (1 << width)
}

pub(crate) fn opcode(word: u32) -> u32
    ensures { result ≡ bits_at word 0 7 }
{
    field(word, 0, 7)
}

pub(crate) fn rd(word: u32) -> u8
    ensures { result ≡ bits_at word 7 5 }
{
    field(word, 7, 5) as u8
}

pub(crate) fn funct3(word: u32) -> u32
    ensures { result ≡ bits_at word 12 3 }
{
    field(word, 12, 3)
}

pub(crate) fn rs1(word: u32) -> u8
    ensures { result ≡ bits_at word 15 5 }
{
    field(word, 15, 5) as u8
}

pub(crate) fn rs2(word: u32) -> u8
    ensures { result ≡ bits_at word 20 5 }
{
    field(word, 20, 5) as u8
}

pub(crate) fn funct7(word: u32) -> u32
    ensures { result ≡ bits_at word 25 7 }
{
    field(word, 25, 7)
}

// The immediate of layout I.
pub(crate) fn immediate_i(word: u32) -> i32
    ensures { IsI word result (bits_at word 15 5) (bits_at word 12 3) (bits_at word 7 5) (bits_at word 0 7) }
{
    signed(field(word, 20, 12), 1 << 11)
}

// The immediate of layout S.
pub(crate) fn immediate_s(word: u32) -> i32
    ensures { IsS word result (bits_at word 20 5) (bits_at word 15 5) (bits_at word 12 3) (bits_at word 0 7) }
{
    let bits = (field(word, 25, 7) << 5) + field(word, 7, 5);
    signed(bits, 1 << 11)
}

// The immediate of layout B.
#[tactic(auto, using(crate::proofs::Immediates::word_is_B))]
pub(crate) fn immediate_b(word: u32) -> i32
    ensures { IsB word result (bits_at word 20 5) (bits_at word 15 5) (bits_at word 12 3) (bits_at word 0 7) }
{
    let bits = (field(word, 31, 1) << 12)
        + (field(word, 7, 1) << 11)
        + (field(word, 25, 6) << 5)
        + (field(word, 8, 4) << 1);
    signed(bits, 1 << 12)
}

// The immediate of layout U.
pub(crate) fn immediate_u(word: u32) -> u32
    ensures { IsU word result (bits_at word 7 5) (bits_at word 0 7) }
{
    field(word, 12, 20)
}

// The immediate of layout J.
pub(crate) fn immediate_j(word: u32) -> i32
    ensures { IsJ word result (bits_at word 7 5) (bits_at word 0 7) }
{
    let bits = (field(word, 31, 1) << 20)
        + (field(word, 12, 8) << 12)
        + (field(word, 20, 1) << 11)
        + (field(word, 21, 10) << 1);
    signed(bits, 1 << 20)
}

// The number that `bits` is in two's complement, where the highest bit counts `-sign`.
fn signed(bits: u32, sign: u32) -> i32
    requires sign { sign ≤ 2 ^ 30 }
    requires bits { bits < 2 * sign }
    ensures { IsSigned sign bits result }
{
    if bits < sign {
        bits as i32
    } else {
        (bits - sign) as i32 - sign as i32
    }
}
