//! What an analysis of the low 32 bits tells.

ghost use Rattle.std.specs.Prelude.{All};
ghost use Rattle.report_text.specs.Reports.{Ascend};
ghost use Rattle.narrow_words.specs.Rows.{AreNarrowRowsAt};

use report_text::{NarrowTracked, PointRows};
use sqlite_items::Items;

/// The tracked names, and each point with its rows: those of the relations that hold there modulo 2^32. Their words are
/// below 2^32.
#[derive(Debug, Drop)]
pub struct NarrowReport {
    pub tracked: NarrowTracked,
    pub points: Items<PointRows>,
    ghost ascending: { ∥ Ascend points ∥₁ },
    ghost reduced: { ∥ All (AreNarrowRowsAt tracked.names) points ∥₁ },
}
