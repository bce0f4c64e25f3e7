//! The system's files. That they are readers of what they hold is trusted: no clause tells what that is.
ghost use Rattle.std.specs.Prelude.{◌≡◌, ℕ, List, Option, None};

use crate::errors::Failed;
use crate::files::Files;
use crate::reader::{Kept, Opens, read_counted};
use std::alloc::Global;
use std::fs::File;
use std::marker::Model;
use std::{io, rt};

/// What opens the system's files.
#[derive(Drop)]
struct System<R: Drop> {
    rt: R,
}

impl<R: rt::Files + Drop> Opens for System<R> {
    type File = R::File;

    ghost contents = { λ _ _. None };

    fn open(&self, name: &str) -> io::Result<R::File> {
        File::open(&self.rt, name)
    }
}

/// The system's files, by a runtime's leave. Clauses see the count of faults, which every name shares.
///
/// A read at 0 begins the file anew, and a read at another place reads on to it, from the beginning where
/// need be. So reads in order go through the file once. A name that isn't there is a fault.
#[derive(Drop)]
pub struct DiskFiles<R: rt::Files + Drop> {
    alloc: Global,
    system: System<R>,
    kept: Option<Kept<R::File>>,
    faults: u64,
}

impl<R: rt::Files + Drop> Model for DiskFiles<R> {
    ghost Value = { ℕ };

    ghost view = { λ d. d.faults };
}

impl<R: rt::Files + Drop> DiskFiles<R> {
    /// No fault is counted yet, and no file is open.
    pub fn new(alloc: Global, rt: R) -> Self
        ensures { result ≡ 0 }
    {
        DiskFiles {
            alloc,
            system: System { rt },
            kept: None,
            faults: 0,
        }
    }
}

impl<R: rt::Files + Drop> Files for DiskFiles<R> {
    ghost contents = { λ _ _. None };

    ghost faults = { λ d _. d };

    fn read(&mut self, name: &str, at: u64, into: &mut [u8]) -> Result<usize, Failed> {
        let (kept, faults) = (&mut self.kept, &mut self.faults);
        read_counted(self.alloc, &self.system, kept, faults, name, at, into)
    }
}
