//! Named files that can be read.
ghost use Rattle.std.specs.Prelude.{◌≡◌, ◌≢◌, ℕ, ◌<◌, ◌≤◌, List, Option, Ok, length, take, drop, IfOk, IfSome, IsSome, OnOk, OnErr};
ghost use Rattle.outside.specs.Counts.{HasRisen, NeverFalls};

use crate::errors::Failed;

/// Named files. A name is any text, and a place in a file is its number of bytes from the beginning.
///
/// Clauses see the contents of each name, where the type tells them, and for each name a count of faults.
pub trait Files {
    ghost contents: { Self → List ℕ → Option (List ℕ) };

    ghost faults: { Self → List ℕ → ℕ };

    /// Reads bytes of the file `name` from the place `at` on into the front of `into`, and gives their
    /// number. It may give fewer than there are, but none at all only at the end of the file.
    ///
    /// It fails only where it counted a fault of this name.
    fn read(&mut self, name: &str, at: u64, into: &mut [u8]) -> Result<usize, Failed>
        ensures bound { IfOk result (λ n. n ≤ length into.new) }
        ensures bytes { IfOk result (λ n. IfSome (contents self.old name.now)
            (λ c. take n into.new ≡ take n (drop at c))) }
        ensures end { result ≡ Ok 0 → 0 < length into.new →
            IfSome (contents self.old name.now) (λ c. length c ≤ at) }
        ensures contents_stay { (other : List ℕ) →
            contents self.new other ≡ contents self.old other }

        // A failure is counted at its name. It counts at no other name whose contents are told, and a
        // read that doesn't fail counts nothing.
        ensures cause { OnErr result
            (HasRisen (faults self.old name.now) (faults self.new name.now)) }
        ensures never_fall { (other : List ℕ) →
            NeverFalls (faults self.old other) (faults self.new other) }
        ensures others_stay { (other : List ℕ) → other ≢ name.now →
            IsSome (contents self.old other) → faults self.new other ≡ faults self.old other }
        ensures ok_stay { OnOk result
            ((other : List ℕ) → faults self.new other ≡ faults self.old other) };
}
