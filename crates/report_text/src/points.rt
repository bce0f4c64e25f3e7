//! Points, with what is told of each.

use sqlite_items::Items;
use word_rows::Row;

/// What is told of the states at a point: that there are none, or rows of 17 words that generate the
/// relations which hold there.
#[derive(Debug, Drop)]
pub enum PointState {
    Unreached,
    Rows(Items<Row<17>>),
}

/// A point, the procedure's address and the instruction's, with what is told there.
#[derive(Debug, Drop)]
pub struct PointRows {
    pub proc_entry: u64,
    pub address: u64,
    pub state: PointState,
}
