//! Files in memory.
ghost use Rattle.std.specs.Prelude.{◌≡◌, ◌≢◌, ◌-◌, ◌≤◌, ◌⊎◌, ◌↔◌, ℕ, List, length, take, drop, min, Contains, IfOk, IfSome, IsErr, IsNone, IsSome, OnOk, OnErr};
ghost use Rattle.outside.specs.Counts.{NeverFalls, one_more};

use crate::calls::next_fails;
use crate::mem_file::{MemFile, copy_piece, count_fault, place_of};
use outside::{Failed, Files};

/// Files in memory that give at most `piece` bytes a call, and fail the calls whose numbers, counted
/// from 1, stand in `fails`.
///
/// Where two files have one name, the first counts. A name that isn't there is a fault, and `faults` is the
/// count of all these names.
#[derive(Drop)]
pub struct MemFiles {
    pub files: Vec<MemFile>,
    pub piece: usize,
    pub fails: Vec<u64>,
    pub calls: u64,
    pub faults: u64,
    ghost some_piece: { 1 ≤ piece },
}

impl Files for MemFiles {
    ghost use Rattle.outside_fakes.specs.MemFiles.{contents_of, faults_of};
    ghost use Rattle.outside_fakes.specs.Named.{counted_named};

    ghost contents = { contents_of };

    ghost faults = { faults_of };

    fn read(&mut self, name: &str, at: u64, into: &mut [u8]) -> Result<usize, Failed>
        ensures calls { self.new.calls ≡ one_more self.old.calls }
        ensures failing { IsErr result ↔
            (IsNone (contents_of self.old name.now) ⊎ Contains self.old.fails.items self.new.calls) }
        ensures count { IfOk result (λ n. IfSome (contents_of self.old name.now)
            (λ c. n ≡ min (min self.old.piece (length into.new)) (length c - at))) }
        ensures bytes { IfOk result (λ n. IfSome (contents_of self.old name.now)
            (λ c. take n into.new ≡ take n (drop at c))) }
        ensures ok { OnOk result (self.new ≡ record self.old { calls = one_more self.old.calls }) }

        // A failure is counted once, at its name: where the name is present, in the first file that has it.
        ensures absent_stay { IsSome (contents_of self.old name.now) → self.new.faults ≡ self.old.faults }
        ensures files_counted { OnErr result
            (self.new.files.items ≡ counted_named self.old.files.items name.now) }
        ensures cause { OnErr result
            (faults_of self.new name.now ≡ one_more (faults_of self.old name.now)) }
        ensures never_fall { (other : List ℕ) →
            NeverFalls (faults_of self.old other) (faults_of self.new other) }
        ensures others_stay { (other : List ℕ) → other ≢ name.now →
            IsSome (contents_of self.old other) → faults_of self.new other ≡ faults_of self.old other }
        ensures contents_stay { (other : List ℕ) →
            contents_of self.new other ≡ contents_of self.old other }
        ensures kept { (self.new.piece ≡ self.old.piece) × (self.new.fails ≡ self.old.fails) }
    {
        let failing = next_fails(&mut self.calls, &self.fails);
        let Some(i) = place_of(&self.files, name) else {
            self.faults = self.faults.saturating_add(1);
            return Err(Failed);
        };
        if failing {
            count_fault(&mut self.files[i]);
            return Err(Failed);
        }
        Ok(copy_piece(&self.files[i].contents, at, self.piece, into))
    }
}
