//! The fields of halves.

ghost use Rattle.std.specs.Prelude.{◌≡◌, ◌<◌};
ghost use Rattle.rv_decode.specs.Layouts.{bits_at};
ghost use Rattle.rvc_expand.specs.Halves.{rd_field, rs2_field, short_register};

// The `width` bits of the half from bit `low` on.
pub(crate) fn field(half: u16, low: u32, width: u32) -> u32
    requires low { low < 16 }
    requires width { width < 16 }
    ensures { result ≡ bits_at half low width }
{
    (u32::from(half) >> low) % (1 << width)
}

// Bits 1:0.
pub(crate) fn op(half: u16) -> u32
    ensures { result ≡ bits_at half 0 2 }
{
    field(half, 0, 2)
}

// Bits 15:13.
pub(crate) fn funct3(half: u16) -> u32
    ensures { result ≡ bits_at half 13 3 }
{
    field(half, 13, 3)
}

// Bits 11:7, a register.
pub(crate) fn rd(half: u16) -> u8
    ensures { result ≡ rd_field half }
{
    field(half, 7, 5) as u8
}

// Bits 6:2, a register.
pub(crate) fn rs2(half: u16) -> u8
    ensures { result ≡ rs2_field half }
{
    field(half, 2, 5) as u8
}

// The register, x8 to x15, that the three bits from bit `low` on name.
pub(crate) fn short_register(half: u16, low: u32) -> u8
    requires { low < 16 }
    ensures { result ≡ short_register half low }
{
    8 + field(half, low, 3) as u8
}
