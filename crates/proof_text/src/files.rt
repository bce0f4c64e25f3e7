//! What a proof file tells.

ghost use Rattle.std.specs.Prelude.{All};
ghost use Rattle.report_text.specs.Reports.{Ascend};
ghost use Rattle.proof_text.specs.Files.{AreClaimsAt, AreRowsOfHead, AreRowsOfEntry};

use crate::rows::SparseRow;
use report_text::{PointRows, Tracked};
use sqlite_items::Items;

/// A head of the program's blocks, a point of a procedure or, where there is no address, its exit, with rows of 289 words
/// that generate the maps of the paths there.
#[derive(Debug, Drop)]
pub struct HeadRows {
    pub proc_entry: u64,
    pub address: Option<u64>,
    pub rows: Items<SparseRow>,
}

/// A procedure with rows of 17 words that generate the states with which it is entered.
#[derive(Debug, Drop)]
pub struct EntryRows {
    pub proc_entry: u64,
    pub rows: Items<SparseRow>,
}

/// The tracked names, the rows of heads and of procedures, and the points with what is claimed of them, which ascend by
/// procedure and address.
#[derive(Debug, Drop)]
pub struct ProofFile {
    pub tracked: Tracked,
    pub heads: Items<HeadRows>,
    pub entries: Items<EntryRows>,
    pub claims: Items<PointRows>,
    ghost maps: { ∥ All AreRowsOfHead heads ∥₁ },
    ghost states: { ∥ All AreRowsOfEntry entries ∥₁ },
    ghost ascending: { ∥ Ascend claims ∥₁ },
    ghost seen: { ∥ All (AreClaimsAt tracked.names) claims ∥₁ },
}
