//! The immediates of halves.

ghost use Rattle.std.specs.Prelude.{◌≡◌, ◌<◌, ◌≤◌, ◌%◌, ◌^◌, ◌-◌};
ghost use Rattle.rv_decode.specs.Instructions.{IsOffset, IsWithin};
ghost use Rattle.rvc_expand.specs.Halves.{in_bits, signed};
ghost use Rattle.rvc_expand.specs.Immediates.{addi4spn_bits, word_bits, double_bits, six_bits, addi16sp_bits, jump_bits, branch_bits, lwsp_bits, ldsp_bits, swsp_bits, sdsp_bits};

use crate::fields::field;

#[tactic(auto, unfolding(crate::specs::Immediates::addi4spn_bits))]
pub(crate) fn addi4spn_bits(half: u16) -> u32
    ensures value { result ≡ addi4spn_bits half }
    ensures small { result < 2 ^ 10 }
{
    (field(half, 11, 2) << 4)
        + (field(half, 7, 4) << 6)
        + (field(half, 6, 1) << 2)
        + (field(half, 5, 1) << 3)
}

#[tactic(auto, unfolding(crate::specs::Immediates::word_bits))]
pub(crate) fn word_bits(half: u16) -> u32
    ensures value { result ≡ word_bits half }
    ensures small { result < 2 ^ 7 }
{
    (field(half, 10, 3) << 3) + (field(half, 6, 1) << 2) + (field(half, 5, 1) << 6)
}

#[tactic(auto, unfolding(crate::specs::Immediates::double_bits))]
pub(crate) fn double_bits(half: u16) -> u32
    ensures value { result ≡ double_bits half }
    ensures small { result < 2 ^ 8 }
{
    (field(half, 10, 3) << 3) + (field(half, 5, 2) << 6)
}

#[tactic(auto, unfolding(crate::specs::Immediates::six_bits))]
pub(crate) fn six_bits(half: u16) -> u32
    ensures value { result ≡ six_bits half }
    ensures small { result < 2 ^ 6 }
{
    (field(half, 12, 1) << 5) + field(half, 2, 5)
}

#[tactic(auto, unfolding(crate::specs::Immediates::addi16sp_bits))]
pub(crate) fn addi16sp_bits(half: u16) -> u32
    ensures value { result ≡ addi16sp_bits half }
    ensures small { result < 2 ^ 10 }
{
    (field(half, 12, 1) << 9)
        + (field(half, 6, 1) << 4)
        + (field(half, 5, 1) << 6)
        + (field(half, 3, 2) << 7)
        + (field(half, 2, 1) << 5)
}

#[tactic(auto, unfolding(crate::specs::Immediates::jump_bits))]
pub(crate) fn jump_bits(half: u16) -> u32
    ensures value { result ≡ jump_bits half }
    ensures small { result < 2 ^ 12 }
    ensures even { result % 2 ≡ 0 }
{
    (field(half, 12, 1) << 11)
        + (field(half, 11, 1) << 4)
        + (field(half, 9, 2) << 8)
        + (field(half, 8, 1) << 10)
        + (field(half, 7, 1) << 6)
        + (field(half, 6, 1) << 7)
        + (field(half, 3, 3) << 1)
        + (field(half, 2, 1) << 5)
}

#[tactic(auto, unfolding(crate::specs::Immediates::branch_bits))]
pub(crate) fn branch_bits(half: u16) -> u32
    ensures value { result ≡ branch_bits half }
    ensures small { result < 2 ^ 9 }
    ensures even { result % 2 ≡ 0 }
{
    (field(half, 12, 1) << 8)
        + (field(half, 10, 2) << 3)
        + (field(half, 5, 2) << 6)
        + (field(half, 3, 2) << 1)
        + (field(half, 2, 1) << 5)
}

#[tactic(auto, unfolding(crate::specs::Immediates::lwsp_bits))]
pub(crate) fn lwsp_bits(half: u16) -> u32
    ensures value { result ≡ lwsp_bits half }
    ensures small { result < 2 ^ 8 }
{
    (field(half, 12, 1) << 5) + (field(half, 4, 3) << 2) + (field(half, 2, 2) << 6)
}

#[tactic(auto, unfolding(crate::specs::Immediates::ldsp_bits))]
pub(crate) fn ldsp_bits(half: u16) -> u32
    ensures value { result ≡ ldsp_bits half }
    ensures small { result < 2 ^ 9 }
{
    (field(half, 12, 1) << 5) + (field(half, 5, 2) << 3) + (field(half, 2, 3) << 6)
}

#[tactic(auto, unfolding(crate::specs::Immediates::swsp_bits))]
pub(crate) fn swsp_bits(half: u16) -> u32
    ensures value { result ≡ swsp_bits half }
    ensures small { result < 2 ^ 8 }
{
    (field(half, 9, 4) << 2) + (field(half, 7, 2) << 6)
}

#[tactic(auto, unfolding(crate::specs::Immediates::sdsp_bits))]
pub(crate) fn sdsp_bits(half: u16) -> u32
    ensures value { result ≡ sdsp_bits half }
    ensures small { result < 2 ^ 9 }
{
    (field(half, 10, 3) << 3) + (field(half, 7, 3) << 6)
}

// The number that `width` bits are in two's complement.
#[tactic(auto, unfolding(crate::specs::Halves::signed))]
fn signed(bits: u32, width: u32) -> i32
    requires width { (1 ≤ width) × (width ≤ 12) }
    requires bits { bits < 2 ^ width }
    ensures value { result ≡ signed width bits }
    ensures within { IsWithin (2 ^ (width - 1)) result }
{
    if bits < 1 << (width - 1) {
        bits as i32
    } else {
        bits as i32 - (1 << width)
    }
}

// The signed constant of six bits.
pub(crate) fn constant(half: u16) -> i32
    ensures value { result ≡ signed 6 (six_bits half) }
    ensures within { IsWithin (2 ^ 5) result }
{
    signed(six_bits(half), 6)
}

// The signed constant of C.ADDI16SP.
pub(crate) fn frame_constant(half: u16) -> i32
    ensures value { result ≡ signed 10 (addi16sp_bits half) }
    ensures within { IsWithin (2 ^ 9) result }
{
    signed(addi16sp_bits(half), 10)
}

// The offset of C.J.
#[tactic(auto, unfolding(crate::specs::Halves::signed))]
pub(crate) fn jump_offset(half: u16) -> i32
    ensures value { result ≡ signed 12 (jump_bits half) }
    ensures offset { IsOffset (2 ^ 11) result }
{
    signed(jump_bits(half), 12)
}

// The offset of C.BEQZ and C.BNEZ.
#[tactic(auto, unfolding(crate::specs::Halves::signed))]
pub(crate) fn branch_offset(half: u16) -> i32
    ensures value { result ≡ signed 9 (branch_bits half) }
    ensures offset { IsOffset (2 ^ 8) result }
{
    signed(branch_bits(half), 9)
}

// The signed constant of six bits, in the twenty bits of LUI's field.
#[tactic(auto, unfolding(crate::specs::Halves::signed, crate::specs::Halves::in_bits))]
pub(crate) fn upper_bits(half: u16) -> u32
    ensures value { result ≡ in_bits 20 (signed 6 (six_bits half)) }
    ensures small { result < 2 ^ 20 }
{
    let bits = six_bits(half);
    if bits < 1 << 5 {
        bits
    } else {
        bits + (1 << 20) - (1 << 6)
    }
}
