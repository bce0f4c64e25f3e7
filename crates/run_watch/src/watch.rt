//! What watches are.

use crate::context::{Found, WatchCtx};
use rv_step::StepRec;

/// A watch sees each record of a run, with the moment of the record, and says in the end what it found. Its meaning is a
/// kind, which stays, and a state. What the kinds 1 to 4 find is told in `specs/Judges.antt`, and a finding stays.
/// Nothing is claimed of other kinds. A run whose watches are all of these four kinds may leave out records at which none of
/// the kinds finds anything.
pub trait Watch: Drop {
    ghost use Rattle.std.specs.Prelude.{◌≡◌, ◌≤◌, ℕ, Option};
    ghost use Rattle.run_watch.specs.declared.context.Found.{Found};
    ghost use Rattle.run_watch.specs.Moments.{moment_of};
    ghost use Rattle.run_watch.specs.Judges.{judge};

    ghost kind_of: { Self → ℕ };

    ghost state: { Self → Option Found };

    /// Its kind.
    fn kind(&self) -> u8
        ensures { result ≡ kind_of self.now };

    /// Shows it a record with its moment.
    fn see(&mut self, ctx: &WatchCtx, rec: &StepRec)
        ensures kind { kind_of self.new ≡ kind_of self.old }
        ensures judged { 1 ≤ kind_of self.old → kind_of self.old ≤ 4 → state self.new ≡ judge (kind_of self.old) (state self.old) (moment_of ctx.now) rec.now };

    /// What it found.
    fn found(&self) -> Option<Found>
        ensures { result ≡ state self.now };
}
