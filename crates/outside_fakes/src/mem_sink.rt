//! A sink in memory.
ghost use Rattle.std.specs.Prelude.{◌≡◌, ◌+◌, ◌-◌, ◌<◌, ◌≤◌, ◌⊎◌, ◌↔◌, ◌++◌, [], length, take, min, Contains, IfOk, IsErr, OnOk, OnErr, vec_capacity, vec_len};
ghost use Rattle.outside.specs.Counts.{NeverFalls, one_more};

use crate::calls::next_fails;
use outside::{Failed, Sink};
use std::alloc::Global;

/// Out of memory.
#[derive(Clone, Copy, Debug, PartialEq, Eq)]
pub struct Memory;

/// A sink in memory that takes at most `piece` bytes a call, and fails the calls whose numbers, counted
/// from 1, stand in `fails`.
#[derive(Drop)]
pub struct MemSink {
    pub written: Vec<u8>,
    pub piece: usize,
    pub fails: Vec<u64>,
    pub calls: u64,
    pub faults: u64,
    ghost some_piece: { 1 ≤ piece },
}

impl MemSink {
    /// An empty sink with room for `n` bytes.
    pub fn with_capacity(
        alloc: Global,
        n: usize,
        piece: usize,
        fails: Vec<u64>,
    ) -> Result<MemSink, Memory>
        requires { 1 ≤ piece }
        ensures written { IfOk result (λ s. s.written.items ≡ []) }
        ensures room { IfOk result (λ s. vec_capacity s.written ≡ n) }
        ensures piece { IfOk result (λ s. s.piece ≡ piece) }
        ensures fails { IfOk result (λ s. s.fails ≡ fails) }
        ensures calls { IfOk result (λ s. s.calls ≡ 0) }
        ensures faults { IfOk result (λ s. s.faults ≡ 0) }
    {
        match Vec::with_capacity(alloc, n) {
            Ok(written) => Ok(MemSink {
                written,
                piece,
                fails,
                calls: 0,
                faults: 0,
            }),
            Err(_) => Err(Memory),
        }
    }
}

impl Sink for MemSink {
    ghost use Rattle.std.specs.Prelude.{Some};

    ghost written = { λ s. Some s.written.items };

    ghost faults = { λ s. s.faults };

    fn put(&mut self, bytes: &[u8]) -> Result<usize, Failed>
        requires { 0 < length bytes.now }
        ensures calls { self.new.calls ≡ one_more self.old.calls }
        ensures failing { IsErr result ↔ (Contains self.old.fails.items self.new.calls
            ⊎ (vec_capacity self.old.written ≤ vec_len self.old.written)) }
        ensures count { IfOk result (λ n. n ≡ min (min (length bytes.now) self.old.piece)
            (vec_capacity self.old.written - vec_len self.old.written)) }
        ensures some { IfOk result (λ n. 0 < n) }
        ensures gain { IfOk result (λ n.
            self.new.written.items ≡ self.old.written.items ++ take n bytes.now) }
        ensures room { vec_capacity self.new.written ≡ vec_capacity self.old.written }
        ensures ok_stays { OnOk result (self.new.faults ≡ self.old.faults) }
        ensures err { OnErr result (self.new.written ≡ self.old.written) }
        ensures cause { OnErr result (self.new.faults ≡ one_more self.old.faults) }
        ensures never_falls { NeverFalls self.old.faults self.new.faults }
        ensures kept { (self.new.piece ≡ self.old.piece) × (self.new.fails ≡ self.old.fails) }
    {
        let failing = next_fails(&mut self.calls, &self.fails);
        let room = self.written.capacity() - self.written.len();
        if failing || room == 0 {
            self.faults = self.faults.saturating_add(1);
            return Err(Failed);
        }
        let n = bytes.len().min(self.piece).min(room);
        append(&mut self.written, &bytes[..n]);
        Ok(n)
    }
}

/// Appends the bytes, for which there is room, in place.
fn append(written: &mut Vec<u8>, bytes: &[u8])
    requires { vec_len written.old + length bytes.now ≤ vec_capacity written.old }
    ensures items { written.new.items ≡ written.old.items ++ bytes.now }
    ensures room { vec_capacity written.new ≡ vec_capacity written.old }
{
    for byte in bytes {
        written.push_reserved(*byte);
    }
}
