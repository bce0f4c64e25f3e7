//! Texts that are read from memory and written to it, in pieces, with calls that fail and with none.

ghost use Rattle.std.specs.Prelude.{◌≡◌, ◌≢◌, ◌≤◌, Err, IsOk};

use crate::system::{fails_as, reads_as};
use outside::{ReadError, WriteError, read_all, write_all};
use outside_fakes::{CleanFiles, CleanSink, MemFile, MemFiles, MemSink};
use std::alloc::{AllocError, Global};

/// Over files that never fail, no read does.
fn read_cleanly(alloc: Global, files: &mut CleanFiles, name: &str) -> Result<Vec<u8>, ReadError>
    ensures { result ≢ Err ReadError.Failed }
{
    read_all(alloc, files, name, 100)
}

/// Into a sink that never fails, every text is written.
fn write_cleanly(sink: &mut CleanSink, bytes: &[u8]) -> Result<(), WriteError>
    ensures { IsOk result }
{
    write_all(sink, bytes)
}

const ROW: &[u8] = b"rel 1*a0 -5\n";

fn file(alloc: Global, name: &str, contents: &[u8]) -> Result<MemFile, AllocError> {
    Ok(MemFile {
        name: String::from_str(alloc, name)?,
        contents: Vec::from_slice(alloc, contents)?,
        faults: 0,
    })
}

/// Files, of which the last has the name of the second.
const FILES: [(&str, &[u8]); 3] = [("empty", b""), ("row", ROW), ("row", b"hidden")];

fn files(alloc: Global) -> Result<Vec<MemFile>, AllocError> {
    let mut files = Vec::new(alloc);
    for (name, contents) in FILES.iter() {
        files.push(file(alloc, name, contents)?)?;
    }
    Ok(files)
}

fn fails_of(alloc: Global, fail: u64) -> Result<Vec<u64>, AllocError> {
    let mut fails = Vec::new(alloc);
    fails.push(fail)?;
    Ok(fails)
}

/// These files, which give so many bytes a call, and the call that fails.
fn files_in_pieces(alloc: Global, piece: usize, fail: u64) -> Result<MemFiles, AllocError>
    requires { 1 ≤ piece }
{
    let fails = fails_of(alloc, fail)?;
    match files(alloc) {
        Ok(files) => Ok(MemFiles {
            files,
            piece,
            fails,
            calls: 0,
            faults: 0,
        }),
        Err(error) => Err(error),
    }
}

/// The bytes of a call, the call that fails, a name, the limit, and the contents that are read.
const READ: [(usize, u64, &str, u64, &[u8]); 5] = [
    (1, 0, "row", 100, ROW),
    (3, 0, "row", 12, ROW),
    (64, 0, "row", 12, ROW),
    (64, 0, "empty", 0, b""),
    (64, 3, "row", 12, ROW),
];

fn is_read(alloc: Global, case: &(usize, u64, &str, u64, &[u8])) -> bool {
    let (piece, fail, name, limit, contents) = *case;
    match files_in_pieces(alloc, piece.max(1), fail) {
        Ok(mut files) => reads_as(alloc, &mut files, name, limit, contents) && files.faults == 0,
        Err(_) => false,
    }
}

fn all_are_read(alloc: Global) -> bool {
    for case in READ.iter() {
        if !is_read(alloc, case) {
            return false;
        }
    }
    true
}

/// The same with the cause where a file isn't read, and the faults that are counted at no file.
const UNREAD: [(usize, u64, &str, u64, ReadError, u64); 5] = [
    (3, 3, "row", 12, ReadError::Failed, 0),
    (64, 2, "row", 12, ReadError::Failed, 0),
    (5, 0, "row", 11, ReadError::TooLong(11), 0),
    (64, 0, "row", 0, ReadError::TooLong(0), 0),
    (64, 0, "absent", 100, ReadError::Failed, 1),
];

fn is_unread(alloc: Global, case: &(usize, u64, &str, u64, ReadError, u64)) -> bool {
    let (piece, fail, name, limit, error, faults) = *case;
    match files_in_pieces(alloc, piece.max(1), fail) {
        Ok(mut files) => fails_as(alloc, &mut files, name, limit, error) && files.faults == faults,
        Err(_) => false,
    }
}

fn none_is_read(alloc: Global) -> bool {
    for case in UNREAD.iter() {
        if !is_unread(alloc, case) {
            return false;
        }
    }
    true
}

#[test]
fn reads_from_memory(rt: HostRuntime) {
    assert!(rt; all_are_read(rt.alloc()));
    assert!(rt; none_is_read(rt.alloc()));
}

const TEXT: &[u8] = b"The relations that hold at each point are printed in order.\n";

/// The room of a sink, the bytes of a call, the call that fails, and how much of the text is written.
const WRITTEN: [(usize, usize, u64, usize); 6] = [
    (60, 1, 0, 60),
    (60, 3, 0, 60),
    (64, 64, 0, 60),
    (60, 10, 2, 10),
    (60, 64, 1, 0),
    (25, 10, 0, 25),
];

fn sink_of(alloc: Global, room: usize, piece: usize, fail: u64) -> Option<MemSink>
    requires { 1 ≤ piece }
{
    match fails_of(alloc, fail) {
        Ok(fails) => MemSink::with_capacity(alloc, room, piece, fails).ok(),
        Err(_) => None,
    }
}

/// Whether a sink takes so many bytes of the text, and counts a fault where they are fewer than all 60.
fn takes(sink: &mut MemSink, length: usize) -> bool {
    let failed = length < 60;
    let faults = if failed { 1 } else { 0 };
    write_all(sink, TEXT).is_err() == failed
        && sink.faults == faults
        && Some(sink.written.as_slice()) == TEXT.get(..length)
}

fn is_written(alloc: Global, case: &(usize, usize, u64, usize)) -> bool {
    let (room, piece, fail, length) = *case;
    match sink_of(alloc, room, piece.max(1), fail) {
        Some(mut sink) => takes(&mut sink, length),
        None => false,
    }
}

fn all_are_written(alloc: Global) -> bool {
    for case in WRITTEN.iter() {
        if !is_written(alloc, case) {
            return false;
        }
    }
    true
}

#[test]
fn writes_to_memory(rt: HostRuntime) {
    assert!(rt; TEXT.len() == 60);
    assert!(rt; all_are_written(rt.alloc()));
}

fn reads_cleanly(alloc: Global, files: &mut CleanFiles, name: &str, contents: &[u8]) -> bool {
    match read_cleanly(alloc, files, name) {
        Ok(got) => got.as_slice() == contents,
        Err(_) => false,
    }
}

/// Whether a sink that has taken almost all that it counts takes two texts.
fn counts_to_the_top() -> bool {
    let mut sink = CleanSink {
        taken: u64::MAX - 5,
    };
    write_cleanly(&mut sink, b"four").is_ok()
        && write_cleanly(&mut sink, b"four").is_ok()
        && sink.taken == u64::MAX
}

fn reads_every_name(alloc: Global) -> bool {
    match files(alloc) {
        Ok(files) => {
            let mut clean = CleanFiles { files };
            reads_cleanly(alloc, &mut clean, "row", ROW)
                && reads_cleanly(alloc, &mut clean, "absent", b"")
        }
        Err(_) => false,
    }
}

#[test]
fn never_fails(rt: HostRuntime) {
    assert!(rt; reads_every_name(rt.alloc()));
    assert!(rt; counts_to_the_top());
}
