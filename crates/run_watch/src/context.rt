//! The moment before a step, and what is found there.

ghost use Rattle.std.specs.Prelude.{◌≤◌, ◌<◌, length};
ghost use Rattle.run_watch.specs.Activations.{slots_from};
ghost use Rattle.run_watch.specs.Marks.{AreMarked};

use crate::activation::Activation;
use crate::code_bytes::CodeBytes;
use crate::marks::SlotMarks;
use report_text::Name;
use word_rows::Row;

/// What a watch found: the number of steps made before, the address of the instruction, and a detail that depends on
/// the watch.
#[derive(Clone, Copy, Debug, PartialEq, Eq)]
pub struct Found {
    pub index: u64,
    pub address: u64,
    pub detail: u64,
}

/// The live slots: of each activation, from the first on, those of the tracked names that are slots of its procedure, in the
/// order of the names. Those of the earlier activations are marked.
#[derive(Clone, Copy)]
pub struct LiveSlots<'a> {
    pub names: &'a [Name],
    pub earlier: &'a [Activation],
    pub last: &'a Activation,
    pub marks: &'a SlotMarks,
    ghost marked: { ∥ AreMarked marks.now (slots_from names.now 1 earlier.now) ∥₁ },
}

/// The moment before a step, for watches. `depth` counts the activations, so the first has depth 1. Of the last activation
/// are told its procedure, sp at its entry, the words of s0 to s11 there, the registers among these on which its caller
/// relies (bit i for s of i), and its return address, which the first lacks. `values` has the words of the names that are
/// seen, 0 for each other and 1 at position 16. `unreached` and `rows` are what the report says of the point, where it has
/// the point. `writable` has bit i where the point assigns to the slot at position i.
/// The tracked names and the activations tell the live slots, which `slots` lists, and those of the earlier activations are
/// marked.
#[derive(Drop)]
pub struct WatchCtx<'a> {
    pub point: u32,
    pub proc_entry: u64,
    pub depth: u32,
    pub entry_sp: u64,
    pub entry_saved: [u64; 12],
    pub relied: u16,
    pub return_to: Option<u64>,
    pub is_return: bool,
    pub values: Row<17>,
    pub unreached: bool,
    pub rows: &'a [Row<17>],
    pub writable: u16,
    pub names: &'a [Name],
    pub earlier: &'a [Activation],
    pub last: &'a Activation,
    pub marks: &'a SlotMarks,
    pub code: &'a CodeBytes,
    ghost few_names: { length names.now ≤ 16 },
    ghost few_earlier: { length earlier.now < 65536 },
    ghost marked: { ∥ AreMarked marks.now (slots_from names.now 1 earlier.now) ∥₁ },
}
