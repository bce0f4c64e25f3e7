//! Names that are tracked.

ghost use Rattle.std.specs.Prelude.{◌≤◌, ◌≢◌, length, All, AllPairs};
ghost use Rattle.report_text.specs.Names.{IsName, IsName-prop, IsNarrowName, IsNarrowName-prop};

use sqlite_items::Items;

/// What a report tracks: a register by its number, or the frame slot `below` bytes under the
/// stack pointer at the entry of the procedure at the address `proc_entry`. A slot has 8 bytes, or 4
/// where relations of the low 32 bits are told.
#[derive(Clone, Copy, Debug, PartialEq, Eq)]
pub enum Name {
    Register(u8),
    Slot { proc_entry: u64, below: u16 },
}

/// The tracked names, 1 to 16 different ones. The name at place i stands at position i of each row.
#[derive(Debug, Drop)]
pub struct Tracked {
    pub names: Items<Name>,
    ghost some: { 1 ≤ length names },
    ghost few: { length names ≤ 16 },
    ghost allowed: { All IsName names } by { Prim.hlevel IsName-prop },
    ghost distinct: { ∥ AllPairs (λ a b. a ≢ b) names ∥₁ },
}

/// The same where slots have 4 bytes, as relations of the low 32 bits track them.
#[derive(Debug, Drop)]
pub struct NarrowTracked {
    pub names: Items<Name>,
    ghost some: { 1 ≤ length names },
    ghost few: { length names ≤ 16 },
    ghost allowed: { All IsNarrowName names } by { Prim.hlevel IsNarrowName-prop },
    ghost distinct: { ∥ AllPairs (λ a b. a ≢ b) names ∥₁ },
}
