//! Slots and instructions in memory.

ghost use Rattle.std.specs.Prelude.{◌≡◌, nat_lt};
ghost use Rattle.rv_step.specs.Effects.{distance};

/// A live slot: the depth of its activation, from 1, the position of its name, and the address of its 8 bytes.
#[derive(Clone, Copy, Debug, PartialEq, Eq)]
pub struct SlotAt {
    pub depth: u32,
    pub position: u8,
    pub address: u64,
}

/// An instruction at a point: its address and how many bytes it has.
#[derive(Clone, Copy, Debug, PartialEq, Eq)]
pub struct CodeAt {
    pub address: u64,
    pub length: u8,
}

/// The byte at an address is one of so many from a place on. Addresses wrap at 2^64.
pub(crate) fn is_among(byte: u64, place: u64, count: u8) -> bool
    ensures { result ≡ nat_lt (distance place byte) count }
{
    byte.wrapping_sub(place) < u64::from(count)
}
