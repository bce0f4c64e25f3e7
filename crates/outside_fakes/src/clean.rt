//! Files and a sink in memory that never fail.
ghost use Rattle.std.specs.Prelude.{◌≡◌, ◌+◌, ◌-◌, ◌<◌, ℕ, List, Option, Some, None, Ok, [], length, take, drop, min, unwrap_or, IfOk};
ghost use Rattle.outside.specs.Counts.{top};

use crate::mem_file::{MemFile, copy_piece, place_of};
use outside::{Failed, Files, Sink};

/// Files in memory that never fail: their count of faults is always 0.
///
/// Where two files have one name, the first counts. A name that isn't there is an empty file.
#[derive(Drop)]
pub struct CleanFiles {
    pub files: Vec<MemFile>,
}

impl Files for CleanFiles {
    ghost use Rattle.outside_fakes.specs.Named.{contents_named};

    ghost contents = { λ s name. Some (unwrap_or (contents_named s.files.items name) []) };

    ghost faults = { λ _ _. 0 };

    fn read(&mut self, name: &str, at: u64, into: &mut [u8]) -> Result<usize, Failed>
        ensures count { let c = unwrap_or (contents_named self.old.files.items name.now) [] in
            result ≡ Ok (min (length into.new) (length c - at)) }
        ensures bytes { let c = unwrap_or (contents_named self.old.files.items name.now) [] in
            IfOk result (λ n. take n into.new ≡ take n (drop at c)) }
        ensures kept { self.new ≡ self.old }
    {
        match place_of(&self.files, name) {
            Some(i) => Ok(copy_piece(&self.files[i].contents, at, into.len(), into)),
            None => Ok(0),
        }
    }
}

/// A sink that never fails, so its count of faults is always 0. It takes every piece whole, and counts
/// its bytes up to 2^64 - 1 in `taken`. It keeps no bytes, and doesn't tell them.
#[derive(Drop)]
pub struct CleanSink {
    pub taken: u64,
}

impl Sink for CleanSink {
    ghost written = { λ _. None };

    ghost faults = { λ _. 0 };

    fn put(&mut self, bytes: &[u8]) -> Result<usize, Failed>
        requires { 0 < length bytes.now }
        ensures whole { result ≡ Ok (length bytes.now) }
        ensures taken { self.new.taken ≡ min (self.old.taken + length bytes.now) top }
    {
        self.taken = self.taken.saturating_add(bytes.len() as u64);
        Ok(bytes.len())
    }
}
