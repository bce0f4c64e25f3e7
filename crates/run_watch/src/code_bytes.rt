//! The instructions of a run.

ghost use Rattle.std.specs.Prelude.{◌≡◌, ◌<◌, ◌≤◌, [], All, AllPairs, MatchOption, false, length};
ghost use Rattle.std.specs.List.{list_any};
ghost use Rattle.std.specs.List.Sorted.{IsPartitionPoint};
ghost use Rattle.rv_step.specs.Effects.{distance};
ghost use Rattle.run_watch.specs.Slots.{IsOff};
ghost use Rattle.run_watch.specs.Judges.{holds_code};

use crate::places::{CodeAt, is_among};
use sqlite_items::Items;
use std::marker::Model;

/// The instructions at points, by their different addresses, ascending.
#[derive(Drop)]
pub struct CodeBytes {
    code: Items<CodeAt>,
    longest: u8,
}

impl Model for CodeBytes {
    ghost use Rattle.std.specs.Prelude.{◌<◌, ◌≤◌, List, All, AllPairs};
    ghost use Rattle.run_watch.specs.declared.places.CodeAt.{CodeAt};

    ghost Value = { List CodeAt };

    ghost view = { λ c. c.code };

    ghost invariant = { λ c. AllPairs (λ a b. a.address < b.address) c.code × All (λ a. a.length ≤ c.longest) c.code };
}

impl CodeBytes {
    /// These instructions.
    pub(crate) fn new(code: Vec<CodeAt>) -> CodeBytes
        requires { AllPairs (λ a b. a.address < b.address) code.items }
        ensures { result ≡ code.items }
    {
        let longest = longest(&code);
        CodeBytes {
            code: Items::from_vec(code),
            longest,
        }
    }

    /// All of them.
    pub fn as_slice(&self) -> &[CodeAt]
        ensures { result.now ≡ self.now }
    {
        self.code.as_slice()
    }

    /// One of them may have one of the 8 bytes from an address on.
    pub fn is_near(&self, address: u64) -> bool
        ensures { result ≡ false → All (IsOff address) self.now }
    {
        let last = address.wrapping_add(7);
        match nearest(self.code.as_slice(), last) {
            Some(distance) => distance < u64::from(self.longest) + 7,
            None => false,
        }
    }

    /// A byte belongs to one of them.
    pub(crate) fn has(&self, byte: u64) -> bool
        ensures { result ≡ list_any (holds_code byte) self.now }
    {
        is_in(self.code.as_slice(), self.longest, byte)
    }
}

// How many bytes the longest instruction has.
fn longest(code: &[CodeAt]) -> u8
    ensures { All (λ a. a.length ≤ result) code.now }
{
    let mut longest = 0;
    for at in code {
        longest = at.length.max(longest);
    }
    longest
}

// How far a byte is above the nearest instruction below it, going round at 2^64, if there are instructions. They ascend.
fn nearest(code: &[CodeAt], byte: u64) -> Option<u64>
    requires { AllPairs (λ a b. a.address < b.address) code.now }
    ensures { MatchOption result (code.now ≡ []) (λ least. All (λ a. least ≤ distance a.address byte) code.now) }
{
    let below = count_to(code, byte);
    if below > 0 {
        return Some(byte.wrapping_sub(code[below - 1].address));
    }
    let last = code.len().checked_sub(1)?;
    Some(byte.wrapping_sub(code[last].address))
}

// A byte belongs to one of these instructions, which ascend and are no longer than this. Only those that begin so close
// below it are looked at, but for the lowest bytes, where addresses go round.
fn is_in(code: &[CodeAt], longest: u8, byte: u64) -> bool
    requires ascend { AllPairs (λ a b. a.address < b.address) code.now }
    requires short { All (λ a. a.length ≤ longest) code.now }
    ensures { result ≡ list_any (holds_code byte) code.now }
{
    let Some(below) = byte.checked_sub(u64::from(longest)) else {
        return some_has(code, byte);
    };
    let low = &code[..count_to(code, byte)];
    some_has(&low[count_to(low, below)..], byte)
}

// How many instructions begin at most at this address. They ascend.
fn count_to(code: &[CodeAt], address: u64) -> usize
    requires { AllPairs (λ a b. a.address < b.address) code.now }
    ensures within { result ≤ length code.now }
    ensures parts { IsPartitionPoint (λ a. a.address ≤ address) (λ a. address < a.address) code.now result }
{
    code.partition_point(|at| at.address <= address)
}

// A byte belongs to one of these instructions.
fn some_has(code: &[CodeAt], byte: u64) -> bool
    ensures { result ≡ list_any (holds_code byte) code.now }
{
    code.iter().any(|at| is_among(byte, at.address, at.length))
}
