//! A sink that bytes are put into.
ghost use Rattle.std.specs.Prelude.{◌≡◌, ℕ, ◌<◌, ◌≤◌, ◌↔◌, List, Option, length, take, IfOk, IsSome, OnOk, OnErr};
ghost use Rattle.outside.specs.Counts.{HasRisen, NeverFalls};
ghost use Rattle.outside.specs.Written.{Gains};

use crate::errors::Failed;

/// A sink that bytes are put into.
///
/// Clauses see the bytes written, where the type tells them, and a count of faults.
pub trait Sink {
    ghost written: { Self → Option (List ℕ) };

    ghost faults: { Self → ℕ };

    /// Appends the front of `bytes`, at least one of them, and gives the number of bytes taken.
    ///
    /// It fails only where it counted a fault, and then nothing was appended.
    fn put(&mut self, bytes: &[u8]) -> Result<usize, Failed>
        requires { 0 < length bytes.now }
        ensures some { IfOk result (λ n. 0 < n) }
        ensures bound { IfOk result (λ n. n ≤ length bytes.now) }
        ensures gain { IfOk result (λ n.
            Gains (written self.old) (written self.new) (take n bytes.now)) }
        ensures err { OnErr result (written self.new ≡ written self.old) }
        ensures told { IsSome (written self.new) ↔ IsSome (written self.old) }

        // A failure is counted, and a put that doesn't fail counts nothing.
        ensures cause { OnErr result (HasRisen (faults self.old) (faults self.new)) }
        ensures never_falls { NeverFalls (faults self.old) (faults self.new) }
        ensures ok_stays { OnOk result (faults self.new ≡ faults self.old) };
}
