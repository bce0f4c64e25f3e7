//! Why it isn't told whether a row holds.

ghost use Rattle.std.specs.Prelude.{◌≡◌};
ghost use Rattle.analyser_core.specs.declared.refusal.Refusal.TheVariants.{Memory};
ghost use Rattle.refute_answers.specs.declared.refusal.RefuteRefusal.TheVariants.{File};

use analyser_core::Refusal;
use row_read::RowRefusal;

/// Why it isn't told whether a row holds, in the order in which the causes are looked for.
#[derive(Clone, Copy, Debug)]
pub enum RefuteRefusal {
    /// There is no analysis of the file either; or memory was wanting.
    File(Refusal),
    /// The file has no such point. The address is the point's.
    NoSuchPoint(u64),
    /// The text is no row over the tracked names that are seen there.
    Row(RowRefusal),
}
