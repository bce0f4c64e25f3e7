//! Where a run goes from a point.

use crate::states::State;
use opaque_words::Row;
use sqlite_items::Items;

/// On to one of some addresses, by a table of targets, a call with the address behind it, a call of code that
/// isn't known, by an opaque instruction; or an end.
#[derive(Drop)]
pub enum Flow {
    On(Items<u64>, State),
    ByTable(Items<u64>),
    CallTo(u64, u64),
    Foreign(u64),
    Past(Row, u64, State),
    Return,
    TailOut,
    Leave,
    Stuck,
    Halt,
}
