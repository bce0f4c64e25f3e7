//! What verdicts tell of runs. Each function runs nothing; its contract is a law.

ghost use Rattle.abi_meanings.specs.Meanings.{KeptIsKept, NeverEnds, ClobbersTell};

/// Each frame of a procedure that ends in a run which keeps the premises goes home, with the entry's word in each
/// register that is told to be kept.
pub fn kept_is_kept()
    ensures { KeptIsKept }
{}

/// No frame ends of a procedure that is told never to.
pub fn never_ends()
    ensures { NeverEnds }
{}

/// A frame that has gone by the walk of a register which is told to be clobbered has the told word in it.
pub fn clobbers_tell()
    ensures { ClobbersTell }
{}
