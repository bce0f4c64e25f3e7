//! The system's standard output. That it is a writer, and shows what was written, is trusted.
ghost use Rattle.std.specs.Prelude.{◌≡◌, ℕ, List, Option, None};

use crate::errors::Failed;
use crate::sink::Sink;
use crate::writer::put_to;
use std::io;
use std::marker::Model;

/// Standard output, by a runtime's leave. Clauses see the count of faults.
#[derive(Drop)]
pub struct StdSink<R: Print + Drop> {
    rt: R,
    faults: u64,
}

impl<R: Print + Drop> Model for StdSink<R> {
    ghost Value = { ℕ };

    ghost view = { λ s. s.faults };
}

impl<R: Print + Drop> StdSink<R> {
    /// No fault is counted yet.
    pub fn new(rt: R) -> Self
        ensures { result ≡ 0 }
    {
        StdSink { rt, faults: 0 }
    }
}

impl<R: Print + Drop> Sink for StdSink<R> {
    ghost written = { λ _. None };

    ghost faults = { λ s. s };

    fn put(&mut self, bytes: &[u8]) -> Result<usize, Failed> {
        put_to(&mut io::writer(&self.rt), &mut self.faults, bytes)
    }
}
