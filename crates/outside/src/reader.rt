//! Readers that are opened by name, as files: what the system's files have to be, and nothing more.
ghost use Rattle.std.specs.Prelude.{◌≡◌, ℕ, ◌+◌, ◌<◌, ◌≤◌, List, Option, Ok, length, string_bytes, IfOk, IfSome, IsTrue, OnOk, OnErr};
ghost use Rattle.std.specs.Io.KnownBytes.{ReadConsumes};
ghost use Rattle.outside.specs.Counts.{HasRisen, NeverFalls};
ghost use Rattle.outside.specs.Streams.{IsAt, IsReadAt, AreFront, EndsBy};

use crate::errors::Failed;
use std::alloc::Global;
use std::io;
use std::io::{ErrorKind, Read};

/// The bytes that are read at once on the way to a place.
const STEP: u64 = 4096;

/// What opens readers by name. Clauses see the contents of each name, where the type tells them.
pub trait Opens {
    type File: Read + Drop;

    ghost contents: { Self → List ℕ → Option (List ℕ) };

    /// A reader of all of the contents of this name.
    fn open(&self, name: &str) -> io::Result<Self::File>
        ensures { IfOk result (λ f. IsAt (contents self.now name.now) (Self.File.remaining f) 0) };
}

/// One read into `into`, tried again where the system interrupted it.
pub fn read_once<F: Read>(file: &mut F, into: &mut [u8]) -> io::Result<usize>
    ensures bound { IfOk result (λ n. n ≤ length into.new) }
    ensures room { length into.new ≡ length into.old }
    ensures bytes { ReadConsumes (F.remaining file.old) (F.remaining file.new) result into.new }
{
    for _ in 0..u64::MAX {
        match file.read(into) {
            Err(error) if error.kind() == ErrorKind::Interrupted => {}
            other => return other,
        }
    }
    Err(io::Error::from(ErrorKind::Interrupted))
}

/// A reader and the place where it stands.
#[derive(Drop)]
struct Stream<F> {
    file: F,
    at: u64,
}

impl<F: Read> Stream<F> {
    /// Reads into `into`, and stands behind what was read.
    fn read(&mut self, into: &mut [u8]) -> io::Result<usize>
        ensures bound { IfOk result (λ n. n ≤ length into.new) }
        ensures room { length into.new ≡ length into.old }
        ensures place { IfOk result (λ n. self.new.at ≡ self.old.at + n) }
        ensures read { (whole : Option (List ℕ)) → IsAt whole (F.remaining self.old.file) self.old.at →
            IfOk result (λ n. IsReadAt whole self.old.at n into.new (F.remaining self.new.file) self.new.at) }
    {
        let n = read_once(&mut self.file, into)?;
        let Some(behind) = self.at.checked_add(n as u64) else {
            return Err(io::Error::from(ErrorKind::FileTooLarge));
        };
        self.at = behind;
        Ok(n)
    }

    /// Reads on to the place `at`, or to the end, and then into `into`.
    fn read_at(&mut self, at: u64, into: &mut [u8]) -> io::Result<usize>
        requires { self.old.at ≤ at }
        ensures bound { IfOk result (λ n. n ≤ length into.new) }
        ensures read { (whole : Option (List ℕ)) → IsAt whole (F.remaining self.old.file) self.old.at →
            IfOk result (λ n. IsReadAt whole at n into.new (F.remaining self.new.file) self.new.at) }
    {
        let mut passed = [0u8; STEP as usize];
        while self.at < at {
            let most = STEP.min(at - self.at) as usize;
            if self.read(&mut passed[..most])? == 0 {
                return Ok(0);
            }
        }
        self.read(into)
    }
}

/// A reader that is kept, with the name that it was opened by.
#[derive(Drop)]
pub struct Kept<F> {
    name: String,
    stream: Stream<F>,
}

impl<F> Kept<F> {
    /// Whether it goes on to this place of this name. At 0 each reader is opened anew.
    fn goes_on_to(&self, name: &str, at: u64) -> bool
        ensures { IsTrue result → (string_bytes self.now.name ≡ name.now) × (self.now.stream.at ≤ at) }
    {
        at > 0 && self.stream.at <= at && self.name.as_str() == name
    }
}

/// Reads at a place of a name by the reader that is kept, where it goes on to this place, or by another.
///
/// It fails only where it counted a fault: where the reader couldn't be opened, or a read failed.
pub fn read_counted<O: Opens>(
    alloc: Global,
    opens: &O,
    kept: &mut Option<Kept<O::File>>,
    faults: &mut u64,
    name: &str,
    at: u64,
    into: &mut [u8],
) -> Result<usize, Failed>
    requires { IfSome kept.old (λ k. IsAt (O.contents opens.now (string_bytes k.name)) (O.File.remaining k.stream.file) k.stream.at) }
    ensures bound { IfOk result (λ n. n ≤ length into.new) }
    ensures bytes { IfOk result (λ n. AreFront (O.contents opens.now name.now) at n into.new) }
    ensures end { result ≡ Ok 0 → 0 < length into.new → EndsBy (O.contents opens.now name.now) at }
    ensures kept { IfSome kept.new (λ k. IsAt (O.contents opens.now (string_bytes k.name)) (O.File.remaining k.stream.file) k.stream.at) }

    // A failure is counted, and a read that doesn't fail counts nothing.
    ensures cause { OnErr result (HasRisen faults.old faults.new) }
    ensures never_falls { NeverFalls faults.old faults.new }
    ensures ok_stays { OnOk result (faults.new ≡ faults.old) }
{
    match read_named(alloc, opens, kept, name, at, into) {
        Ok(n) => Ok(n),
        Err(_) => {
            *faults = faults.saturating_add(1);
            Err(Failed)
        }
    }
}

// Reads by the reader that is kept, where it goes on to this place, or else anew.
fn read_named<O: Opens>(
    alloc: Global,
    opens: &O,
    kept: &mut Option<Kept<O::File>>,
    name: &str,
    at: u64,
    into: &mut [u8],
) -> io::Result<usize>
    requires { IfSome kept.old (λ k. IsAt (O.contents opens.now (string_bytes k.name)) (O.File.remaining k.stream.file) k.stream.at) }
    ensures bound { IfOk result (λ n. n ≤ length into.new) }
    ensures bytes { IfOk result (λ n. AreFront (O.contents opens.now name.now) at n into.new) }
    ensures end { IfOk result (λ n. n ≡ 0 → 0 < length into.new → EndsBy (O.contents opens.now name.now) at) }
    ensures kept { IfSome kept.new (λ k. IsAt (O.contents opens.now (string_bytes k.name)) (O.File.remaining k.stream.file) k.stream.at) }
{
    match kept.take() {
        Some(mut open) if open.goes_on_to(name, at) => {
            let n = open.stream.read_at(at, into)?;
            *kept = Some(open);
            Ok(n)
        }
        _ => read_anew(alloc, opens, kept, name, at, into),
    }
}

// Opens the reader of this name and reads at the place. Where there is no memory for the name, it isn't kept.
fn read_anew<O: Opens>(
    alloc: Global,
    opens: &O,
    kept: &mut Option<Kept<O::File>>,
    name: &str,
    at: u64,
    into: &mut [u8],
) -> io::Result<usize>
    requires { IfSome kept.old (λ k. IsAt (O.contents opens.now (string_bytes k.name)) (O.File.remaining k.stream.file) k.stream.at) }
    ensures bound { IfOk result (λ n. n ≤ length into.new) }
    ensures bytes { IfOk result (λ n. AreFront (O.contents opens.now name.now) at n into.new) }
    ensures end { IfOk result (λ n. n ≡ 0 → 0 < length into.new → EndsBy (O.contents opens.now name.now) at) }
    ensures kept { IfSome kept.new (λ k. IsAt (O.contents opens.now (string_bytes k.name)) (O.File.remaining k.stream.file) k.stream.at) }
{
    let file = opens.open(name)?;
    let mut stream = Stream { file, at: 0 };
    let n = stream.read_at(at, into)?;
    if let Ok(name) = String::from_str(alloc, name) {
        *kept = Some(Kept { name, stream });
    }
    Ok(n)
}
