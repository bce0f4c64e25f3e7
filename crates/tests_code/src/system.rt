//! The system's files and its standard output, and readers and writers that are interrupted, take little or fail.

ghost use Rattle.std.specs.Prelude.{◌≤◌, IfOk, None};

use outside::{
    DiskFiles, Failed, Files, Kept, Opens, ReadError, Sink, StdSink, flush_once, put_to, read_all,
    read_counted, read_once, write_all, write_once,
};
use std::alloc::{AllocError, Global};
use std::io::{ErrorKind, Read, Write};
use std::path::PathBuf;
use std::test::Fail;
use std::{env, fs, io, process};

/// Whether a file is read whole, with these contents.
pub(crate) fn reads_as<F: Files>(
    alloc: Global,
    files: &mut F,
    name: &str,
    limit: u64,
    contents: &[u8],
) -> bool {
    match read_all(alloc, files, name, limit) {
        Ok(got) => got.as_slice() == contents,
        Err(_) => false,
    }
}

/// Whether it can't be read, and for this cause.
pub(crate) fn fails_as<F: Files>(
    alloc: Global,
    files: &mut F,
    name: &str,
    limit: u64,
    error: ReadError,
) -> bool {
    match read_all(alloc, files, name, limit) {
        Ok(_) => false,
        Err(found) => found == error,
    }
}

/// A place for a file of this process that doesn't last.
fn path_of(rt: &HostRuntime, name: &str) -> Result<PathBuf, Fail> {
    let id = process::id(rt.process());
    let file = format!(in rt.alloc(); "{name}-{id}")?;
    Ok(env::temp_dir(rt)?.join(rt.alloc(), file.as_str())?)
}

/// Bytes that count from 0 to 250, again and again.
fn counting(alloc: Global, length: u32) -> Result<Vec<u8>, AllocError> {
    let mut bytes = Vec::new(alloc);
    for i in 0..length {
        bytes.push((i % 251) as u8)?;
    }
    Ok(bytes)
}

/// Whether a file is read whole, has these bytes, and is longer than one byte less.
fn reads_counting<F: Files>(alloc: Global, files: &mut F, name: &str, contents: &[u8]) -> bool {
    reads_as(alloc, files, name, 10_000, contents)
        && fails_as(alloc, files, name, 9_999, ReadError::TooLong(9_999))
}

/// Places in the file, ahead of where it stands and behind it, and the bytes there.
const PLACES: [(u64, u8); 3] = [(9_000, 215), (5_000, 231), (5_001, 232)];

fn reads_at_places<F: Files>(files: &mut F, name: &str) -> bool {
    let mut byte = [0u8];
    for (at, want) in PLACES.iter() {
        if files.read(name, *at, &mut byte) != Ok(1) || byte[0] != *want {
            return false;
        }
    }
    files.read(name, 20_000, &mut byte) == Ok(0)
}

fn reads_a_file(rt: &HostRuntime, name: &str, contents: &[u8]) -> bool {
    let alloc = rt.alloc();
    let mut files = DiskFiles::new(alloc, rt);
    fs::write(rt, name, contents).is_ok()
        && reads_counting(alloc, &mut files, name, contents)
        && reads_at_places(&mut files, name)
        && fs::remove_file(rt, name).is_ok()
        && fails_as(alloc, &mut files, name, 10_000, ReadError::Failed)
}

fn reads_counting_file(rt: &HostRuntime, name: &str) -> bool {
    match counting(rt.alloc(), 10_000) {
        Ok(contents) => reads_a_file(rt, name, &contents),
        Err(_) => false,
    }
}

#[test]
fn reads_from_disk(rt: HostRuntime) -> Result<(), Fail> {
    let path = path_of(&rt, "outside")?;
    assert!(rt; reads_counting_file(&rt, path.to_str().ok_or("no text")?));
    Ok(())
}

/// Reads two files in turn, the second from the place where the first stands, and then each whole.
fn reads_in_turn<F: Files>(alloc: Global, files: &mut F, first: &str, second: &str) -> bool {
    let mut bytes = [0u8; 5];
    files.read(first, 0, &mut bytes) == Ok(5)
        && files.read(second, 5, &mut bytes) == Ok(3)
        && bytes.get(..3) == Some(b"-16".as_slice())
        && reads_as(alloc, files, first, 100, b"slot -8")
        && reads_as(alloc, files, second, 100, b"slot -16")
}

fn writes_files(rt: &HostRuntime, first: &str, second: &str) -> bool {
    fs::write(rt, first, b"slot -8").is_ok() && fs::write(rt, second, b"slot -16").is_ok()
}

fn removes_files(rt: &HostRuntime, first: &str, second: &str) -> bool {
    fs::remove_file(rt, first).is_ok() && fs::remove_file(rt, second).is_ok()
}

/// Replaces a file that is open at its beginning, and reads it.
fn reads_replaced<F: Files>(rt: &HostRuntime, files: &mut F, name: &str) -> bool {
    files.read(name, 0, &mut []) == Ok(0)
        && fs::remove_file(rt, name).is_ok()
        && fs::write(rt, name, b"slot -24").is_ok()
        && reads_as(rt.alloc(), files, name, 100, b"slot -24")
}

fn reads_two_files(rt: &HostRuntime, first: &str, second: &str) -> bool {
    let mut files = DiskFiles::new(rt.alloc(), rt);
    writes_files(rt, first, second)
        && reads_in_turn(rt.alloc(), &mut files, first, second)
        && reads_replaced(rt, &mut files, first)
        && removes_files(rt, first, second)
}

fn reads_two_paths(rt: &HostRuntime, first: Option<&str>, second: Option<&str>) -> bool {
    match (first, second) {
        (Some(first), Some(second)) => reads_two_files(rt, first, second),
        _ => false,
    }
}

#[test]
fn reads_each_file_from_its_beginning(rt: HostRuntime) -> Result<(), Fail> {
    let first = path_of(&rt, "outside-first")?;
    let second = path_of(&rt, "outside-second")?;
    assert!(rt; reads_two_paths(&rt, first.to_str(), second.to_str()));
    Ok(())
}

/// A reader and writer whose first calls are interrupted, and the next of another kind.
#[derive(Drop)]
struct Interrupted {
    calls: usize,
    then: Option<ErrorKind>,
}

impl Interrupted {
    fn next(&mut self, length: usize) -> io::Result<usize>
        ensures { IfOk result (λ n. n ≤ length) }
    {
        if self.calls > 0 {
            self.calls -= 1;
            return Err(io::Error::from(ErrorKind::Interrupted));
        }
        match self.then {
            Some(kind) => Err(io::Error::from(kind)),
            None => Ok(length),
        }
    }
}

impl Read for Interrupted {
    fn read(&mut self, buf: &mut [u8]) -> io::Result<usize> {
        self.next(buf.len())
    }
}

impl Write for Interrupted {
    fn write(&mut self, buf: &[u8]) -> io::Result<usize> {
        self.next(buf.len())
    }

    fn flush(&mut self) -> io::Result<()> {
        self.next(0)?;
        Ok(())
    }
}

fn end_of(calls: usize, then: Option<ErrorKind>) -> Interrupted {
    Interrupted { calls, then }
}

/// The calls at an end that is interrupted so often: the bytes read and written, and whether it was flushed.
fn calls_at(calls: usize, then: Option<ErrorKind>) -> (Option<usize>, Option<usize>, bool) {
    let mut bytes = [0u8; 4];
    let read = read_once(&mut end_of(calls, then), &mut bytes).ok();
    let written = write_once(&mut end_of(calls, then), b"row").ok();
    let flushed = flush_once(&mut end_of(calls, then)).is_ok();
    (read, written, flushed)
}

fn tries_again(calls: usize) -> bool {
    calls_at(calls, None) == (Some(4), Some(3), true)
        && calls_at(calls, Some(ErrorKind::BrokenPipe)) == (None, None, false)
}

#[test]
fn tries_again_where_it_was_interrupted(rt: HostRuntime) {
    assert!(rt; tries_again(0) && tries_again(1) && tries_again(3));
}

/// A reader that gives 3 bytes a call of these digits, and fails when so many calls were made.
#[derive(Drop)]
struct Digits {
    at: usize,
    calls: usize,
}

const DIGITS: &[u8] = b"0123456789";

impl Read for Digits {
    fn read(&mut self, buf: &mut [u8]) -> io::Result<usize> {
        if self.calls == 0 {
            return Err(io::Error::from(ErrorKind::IsADirectory));
        }
        self.calls -= 1;
        let at = self.at.min(DIGITS.len());
        let n = (DIGITS.len() - at).min(buf.len()).min(3);
        buf[..n].copy_from_slice(&DIGITS[at..at + n]);
        self.at = at + n;
        Ok(n)
    }
}

/// Opens such readers by any name.
#[derive(Drop)]
struct OfDigits {
    calls: usize,
}

impl Opens for OfDigits {
    type File = Digits;

    ghost contents = { λ _ _. None };

    fn open(&self, _name: &str) -> io::Result<Digits> {
        Ok(Digits {
            at: 0,
            calls: self.calls,
        })
    }
}

/// Reads at 0 and then at a place, by readers that fail at a call: what the second gives, and the faults.
fn read_second(alloc: Global, calls: usize, at: u64) -> (Result<usize, Failed>, u8, u64) {
    let opens = OfDigits { calls };
    let mut kept: Option<Kept<Digits>> = None;
    let (mut faults, mut bytes) = (0, [0u8; 4]);
    let _ = read_counted(alloc, &opens, &mut kept, &mut faults, "f", 0, &mut bytes);
    let second = read_counted(alloc, &opens, &mut kept, &mut faults, "f", at, &mut bytes);
    (second, bytes[0], faults)
}

#[test]
fn reads_on_to_a_place_or_counts_a_fault(rt: HostRuntime) {
    assert!(rt; read_second(rt.alloc(), 9, 5) == (Ok(3), b'5', 0));
    assert!(rt; read_second(rt.alloc(), 9, 20).0 == Ok(0));
    assert!(rt; read_second(rt.alloc(), 2, 5) == (Err(Failed), b'0', 1));
}

/// A sink of a writer that takes 3 bytes a call, so often, and whose flush may fail.
#[derive(Drop)]
struct Narrow {
    out: NarrowWriter,
    faults: u64,
}

#[derive(Drop)]
struct NarrowWriter {
    taken: Vec<u8>,
    calls: usize,
    can_flush: bool,
}

impl Write for NarrowWriter {
    fn write(&mut self, buf: &[u8]) -> io::Result<usize> {
        if self.calls == 0 {
            return Err(io::Error::from(ErrorKind::BrokenPipe));
        }
        self.calls -= 1;
        let n = buf.len().min(3);
        self.taken.extend_from_slice(&buf[..n])?;
        Ok(n)
    }

    fn flush(&mut self) -> io::Result<()> {
        if self.can_flush {
            Ok(())
        } else {
            Err(io::Error::from(ErrorKind::BrokenPipe))
        }
    }
}

impl Sink for Narrow {
    ghost written = { λ _. None };

    ghost faults = { λ s. s.faults };

    fn put(&mut self, bytes: &[u8]) -> Result<usize, Failed> {
        put_to(&mut self.out, &mut self.faults, bytes)
    }
}

/// Whether of these bytes just these are taken, and a fault is counted where they aren't all.
fn takes(alloc: Global, calls: usize, can_flush: bool, bytes: &[u8], taken: &[u8]) -> bool {
    let out = NarrowWriter {
        taken: Vec::new(alloc),
        calls,
        can_flush,
    };
    let mut sink = Narrow { out, faults: 0 };
    let is_whole = write_all(&mut sink, bytes).is_ok();
    let faults = if is_whole { 0 } else { 1 };
    is_whole == (bytes == taken) && sink.faults == faults && sink.out.taken.as_slice() == taken
}

#[test]
fn puts_all_bytes_or_counts_a_fault(rt: HostRuntime) {
    let text = b"0123456789".as_slice();
    assert!(rt; takes(rt.alloc(), 4, true, text, text));
    assert!(rt; takes(rt.alloc(), 2, true, text, b"012345"));
    assert!(rt; takes(rt.alloc(), 4, false, text, b"012"));
}

fn takes_many(alloc: Global) -> bool {
    match counting(alloc, 10_000) {
        Ok(bytes) => takes(alloc, 10_000, true, &bytes, &bytes),
        Err(_) => false,
    }
}

#[test]
fn puts_many_bytes(rt: HostRuntime) {
    assert!(rt; takes_many(rt.alloc()));
}

#[test]
fn writes_to_standard_output(rt: HostRuntime) {
    assert!(rt; write_all(&mut StdSink::new(&rt), b"written by StdSink\n") == Ok(()));
}
