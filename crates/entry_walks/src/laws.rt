//! What walks tell of runs. The function runs nothing; its contract is the law.

ghost use Rattle.entry_walks.specs.Ways.{WalksAreDescribed};

/// A frame of a run that has gone by the addresses of a walk is where the walk comes to, and the walk's state
/// describes the machine there.
pub fn walks_are_described()
    ensures { WalksAreDescribed }
{}
