//! What an end owes.

ghost use Rattle.std.specs.Prelude.{◌≡◌, ℕ, ◌<◌, true, false, length, get_or, IsTrue};
ghost use Rattle.entry_values.specs.declared.values.Value.TheVariants.{Is};
ghost use Rattle.entry_values.specs.Values.{FitsWord, unknown};
ghost use Rattle.entry_tables.specs.Tables.{by_convention};

use entry_values::{Value, fits};

/// The registers that code keeps by the calling convention.
pub const CONVENTION: [bool; 32] = [
    false, false, true, true, true, false, false, false, true, true, false, false, false, false,
    false, false, false, false, true, true, true, true, true, true, true, true, true, true, false,
    false, false, false,
];

/// The register has its word of the entry.
pub fn is_itself(r: usize, v: Value) -> bool
    ensures { IsTrue result → v ≡ Is r 0 }
{
    match v {
        Value::Is(b, k) => usize::from(b) == r && k == 0,
        Value::Any(_, _) => false,
    }
}

/// Each register that is kept has its word of the entry.
pub(crate) fn keeps_registers(keeps: &[bool], values: &[Value]) -> bool
    requires { length keeps.now ≡ length values.now }
    ensures { IsTrue result → (r : ℕ) → get_or keeps.now r false ≡ true → get_or values.now r unknown ≡ Is r 0 }
{
    let mut r = 0;
    while r < keeps.len() {
        if keeps[r] && !is_itself(r, values[r]) {
            return false;
        }
        r += 1;
    }
    true
}

/// Code keeps the register by the calling convention.
pub fn by_convention(r: usize) -> bool
    ensures { result ≡ by_convention r }
{
    2 <= r && r <= 4 || (8 <= r && r <= 9 || 18 <= r && r <= 27)
}

/// Each register that is kept is one that code keeps by the calling convention.
pub(crate) fn keeps_convention(keeps: &[bool]) -> bool
    ensures { IsTrue result → (r : ℕ) → get_or keeps.now r false ≡ true → by_convention r ≡ true }
{
    let mut r = 0;
    while r < keeps.len() {
        if keeps[r] && !by_convention(r) {
            return false;
        }
        r += 1;
    }
    true
}

/// Numbers of values are words.
pub(crate) fn all_fit(values: &[Value])
    ensures { (r : ℕ) → FitsWord (get_or values.now r unknown) }
{
    let mut r = 0;
    while r < values.len() {
        fits(values[r]);
        r += 1;
    }
}
