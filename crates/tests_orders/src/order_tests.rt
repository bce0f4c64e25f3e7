//! Whole orders over files and sinks in memory, and over those of the system.

use crate::calls::{CALL, EBREAK, USAGE, answer_to, gets, one_file, words_of};
use elf_write::file_of_words;
use outside::{DiskFiles, StdSink};
use outside_fakes::{CleanFiles, CleanSink, MemSink};
use std::alloc::Global;
use std::io::ErrorKind;
use std::process::ExitCode;
use std::test::Fail;
use std::{env, fs, io, process};
use top_call::{run, run_with};

/// addi a0,zero,5; ebreak
const FIVE: [u32; 2] = [0x00500513, EBREAK];

const REPORT: &str =
    "affine-report 2\ntrack a0\nproc 0x10078\nat 0x10078\nnone\nat 0x1007c\nrel 1*a0 -5\nend\n";

const LIST: &str =
    "affine-list 1\nproc 0x10078\n0x10078 00500513 addi a0,zero,5\n0x1007c 00100073 ebreak\nend\n";

// The order, how many bytes of the file there are, the status and the text.
const ORDERS: [(&str, usize, u8, &str); 28] = [
    ("analyse f --track x10", 128, 0, REPORT),
    ("analyse --track=a0 f", 128, 0, REPORT),
    ("list f", 128, 0, LIST),
    ("cert f --track s0,fp", 128, 1, "refused Repeated 2\n"),
    ("cert g --track a0", 128, 3, "read fault\n"),
    ("cert f", 128, 2, USAGE),
    ("analyse f --track ", 128, 1, "refused Empty\n"),
    (
        "analyse f --track a0,a1,a2,a3,a4,a5,a6,a7,s0,s1,s2,s3,s4,s5,s6,s7,s8",
        128,
        1,
        "refused TooMany 16\n",
    ),
    ("analyse f --track s0,fp", 128, 1, "refused Repeated 2\n"),
    ("analyse f --track zero", 128, 1, "refused UnknownName 1\n"),
    (
        "analyse f --track a0,,a1",
        128,
        1,
        "refused UnknownName 2\n",
    ),
    ("analyse f --track ,", 128, 1, "refused UnknownName 1\n"),
    (
        "analyse f --track a0,0x10078:-12",
        128,
        1,
        "refused BadSlot 2\n",
    ),
    (
        "analyse f --track 0x10078:-2056",
        128,
        1,
        "refused BadSlot 1\n",
    ),
    (
        "analyse f --track 0x9999:-8",
        128,
        1,
        "refused NoSuchProcedure 1\n",
    ),
    (
        "analyse f --track main:-8",
        128,
        1,
        "refused UnknownName 1\n",
    ),
    (
        "analyse f --track a0",
        63,
        1,
        "refused Short 63 at offset 63\n",
    ),
    ("list f", 0, 1, "refused Short 0 at offset 0\n"),
    ("list f", 64, 1, "refused BadHeaderTable at offset 32\n"),
    ("list f", 127, 1, "refused BadSegment at offset 64\n"),
    ("list g", 128, 3, "read fault\n"),
    ("analyse g --track a0", 128, 3, "read fault\n"),
    ("frob", 128, 2, USAGE),
    ("list", 128, 2, USAGE),
    ("list -f", 128, 2, USAGE),
    ("list f f", 128, 2, USAGE),
    ("analyse f --track", 128, 2, USAGE),
    ("analyse f --track -a0", 128, 2, USAGE),
];

// Whether the order gets this status and text over the first bytes of the file, whatever the pieces.
fn gets_in_pieces(
    alloc: Global,
    order: &str,
    length: usize,
    status: u8,
    text: &str,
) -> Result<bool, Fail> {
    for piece in [1, 64, 4096] {
        let mut bytes = file_of_words(alloc, &FIVE)?;
        bytes.truncate(length);
        let (answer, written) = answer_to(alloc, order, bytes, piece)?;
        if answer != status || written.as_slice() != text.as_bytes() {
            return Ok(false);
        }
    }
    Ok(true)
}

fn all_get(alloc: Global, cases: &[(&str, usize, u8, &str)]) -> Result<bool, Fail> {
    for (order, length, status, text) in cases.iter() {
        if !gets_in_pieces(alloc, order, *length, *status, text)? {
            return Ok(false);
        }
    }
    Ok(true)
}

#[test]
fn orders_get_their_texts(rt: HostRuntime) -> Result<(), Fail> {
    assert!(rt; all_get(rt.alloc(), &ORDERS)?);
    Ok(())
}

// Code that is refused, and the text.
const REFUSED: [([u32; 2], &str); 3] = [
    ([0x00000513, 0x0080006F], "refused OutsideCode at 0x10084\n"),
    ([0x00000513, 0x00000513], "refused OutsideCode at 0x10080\n"),
    ([0, EBREAK], "refused NoInstruction 00000000 at 0x10078\n"),
];

const OVER_FILES: [&str; 3] = ["list f", "analyse f --track a0", "cert f --track a0"];

fn each_refuses(alloc: Global, code: &[u32], text: &str) -> Result<bool, Fail> {
    for order in OVER_FILES.iter() {
        if !gets(
            alloc,
            order,
            file_of_words(alloc, code)?,
            1,
            text.as_bytes(),
        )? {
            return Ok(false);
        }
    }
    Ok(true)
}

fn all_refuse(alloc: Global, cases: &[([u32; 2], &str)]) -> Result<bool, Fail> {
    for (code, text) in cases.iter() {
        if !each_refuses(alloc, code, text)? {
            return Ok(false);
        }
    }
    Ok(true)
}

#[test]
fn each_order_over_a_file_refuses_its_code(rt: HostRuntime) -> Result<(), Fail> {
    assert!(rt; all_refuse(rt.alloc(), &REFUSED)?);
    Ok(())
}

const ONE: &str = "affine-gen 1\nn 1\nbytes 164\npoints 11\nprocs 2\nrows 1\nunreached 0\nend\n";

const FORTY: &str =
    "affine-gen 1\nn 40\nbytes 1412\npoints 323\nprocs 41\nrows 201\nunreached 0\nend\n";

// Orders over files that are made, with their statuses and texts.
const MADE: [(&str, u8, &str); 7] = [
    ("gen 1 --track a0", 0, ONE),
    ("gen --track=a0 40", 0, FORTY),
    ("gen 0 --track a0", 1, "refused Range 0\n"),
    ("gen 101 --track ", 1, "refused Range 101\n"),
    ("gen 100 --track ", 1, "refused Empty\n"),
    (
        "gen 2 --track a0,0x100c4:-8",
        1,
        "refused NoSuchProcedure 2\n",
    ),
    ("gen 007 --track a0", 2, USAGE),
];

fn all_made(alloc: Global, cases: &[(&str, u8, &str)]) -> Result<bool, Fail> {
    for (order, status, text) in cases.iter() {
        if !gets(alloc, order, Vec::new(alloc), *status, text.as_bytes())? {
            return Ok(false);
        }
    }
    Ok(true)
}

#[test]
fn generated_files(rt: HostRuntime) -> Result<(), Fail> {
    assert!(rt; all_made(rt.alloc(), &MADE)?);
    Ok(())
}

const CALL_LIST: &str =
    "affine-list 1\nproc 0x10078\n0x10078 00000097 auipc ra,0x0\n0x1007c 00c080e7 jalr ra,12(ra)\n0x10080 00100073 ebreak\nproc 0x10084\n0x10084 00008067 jalr zero,0(ra)\nend\n";

// The code, and the status and the text of its list.
const FLOWS: [(&[u32], u8, &str); 5] = [
    (&CALL, 0, CALL_LIST),
    // jal ra,12; jalr zero,0(t0); ebreak; jalr zero,0(t1)
    (
        &[0x00c000ef, 0x00028067, EBREAK, 0x00030067],
        1,
        "refused IndirectJump t0 at 0x1007c\n",
    ),
    // jal t0,8
    (&[0x008002ef], 1, "refused OddLink t0 at 0x10078\n"),
    // jal zero,2
    (
        &[0x0020006f],
        1,
        "refused MisalignedTarget 0x1007a at 0x10078\n",
    ),
    // beq a0,zero,8 before a pair
    (
        &[0x00050463, 0x00000097, 0x00c080e7, EBREAK, 0x00008067],
        1,
        "refused IntoPair at 0x10080\n",
    ),
];

fn all_list(alloc: Global, cases: &[(&[u32], u8, &str)]) -> Result<bool, Fail> {
    for (code, status, text) in cases.iter() {
        if !gets(
            alloc,
            "list f",
            file_of_words(alloc, code)?,
            *status,
            text.as_bytes(),
        )? {
            return Ok(false);
        }
    }
    Ok(true)
}

#[test]
fn flow_of_files(rt: HostRuntime) -> Result<(), Fail> {
    assert!(rt; all_list(rt.alloc(), &FLOWS)?);
    Ok(())
}

#[test]
fn many_points(rt: HostRuntime) -> Result<(), Fail> {
    let alloc = rt.alloc();
    let mut words = vec![in alloc; 0x00050513; 16384]?;
    words.push(EBREAK)?;
    let bytes = file_of_words(alloc, &words)?;
    assert!(rt; gets(alloc, "list f", bytes, 1, b"refused TooManyPoints 16384\n")?);
    words.truncate(4095);
    let bytes = file_of_words(alloc, &words)?;
    assert!(rt;
        gets(
            alloc,
            "list f",
            bytes,
            1,
            b"refused OutsideCode at 0x14074\n"
        )?
    );
    Ok(())
}

// The call of read that fails, the call of put that fails, the status and what is written.
const FAULTS: [(u64, u64, u8, &str); 4] = [
    (1, 0, 3, "read fault\n"),
    (0, 2, 4, "affine-rep"),
    (2, 1, 4, ""),
    (0, 0, 0, REPORT),
];

fn ends_so(alloc: Global, read: u64, put: u64, status: u8, text: &str) -> Result<bool, Fail> {
    let words = words_of(alloc, "analyse f --track a0")?;
    let mut files = one_file(alloc, file_of_words(alloc, &FIVE)?, 64, read)?;
    let mut out = MemSink::with_capacity(alloc, 1000, 10, vec![in alloc; put]?)
        .ok()
        .ok_or("memory")?;
    let answer = run(alloc, &words, &mut files, &mut out);
    Ok(answer == status && out.written.as_slice() == text.as_bytes())
}

fn all_end_so(alloc: Global, cases: &[(u64, u64, u8, &str)]) -> Result<bool, Fail> {
    for (read, put, status, text) in cases.iter() {
        if !ends_so(alloc, *read, *put, *status, text)? {
            return Ok(false);
        }
    }
    Ok(true)
}

#[test]
fn faults_have_their_status(rt: HostRuntime) -> Result<(), Fail> {
    assert!(rt; all_end_so(rt.alloc(), &FAULTS)?);
    Ok(())
}

#[test]
fn a_file_with_a_byte_too_many(rt: HostRuntime) -> Result<(), Fail> {
    let alloc = rt.alloc();
    let bytes = vec![in alloc; 0; (1 << 24) + 1]?;
    let (status, text) = answer_to(alloc, "analyse f --track a0", bytes, 1 << 20)?;
    assert_eq!(rt; status, 1);
    assert_eq!(rt; text.as_slice(), b"refused TooLong 16777216\n".as_slice());
    Ok(())
}

#[test]
fn no_words_at_all(rt: HostRuntime) -> Result<(), Fail> {
    let alloc = rt.alloc();
    let mut sink = CleanSink { taken: 0 };
    let mut none = CleanFiles {
        files: Vec::new(alloc),
    };
    assert_eq!(rt; run(alloc, &[], &mut none, &mut sink), 2);
    assert_eq!(rt; run(alloc, &[], &mut none, &mut sink), 2);
    assert_eq!(rt; sink.taken, 426);
    Ok(())
}

// What can't be had of the arguments: no memory for them, or no text. Then the status, and how many bytes are put.
const UNHAD: [(ErrorKind, u8, u64); 2] = [
    (ErrorKind::OutOfMemory, 5, 14),
    (ErrorKind::InvalidData, 2, 213),
];

#[test]
fn arguments_that_cannot_be_had(rt: HostRuntime) -> Result<(), Fail> {
    let alloc = rt.alloc();
    let mut none = CleanFiles {
        files: Vec::new(alloc),
    };
    for (kind, status, taken) in UNHAD.iter() {
        let mut sink = CleanSink { taken: 0 };
        let words: io::Result<Vec<String>> = Err(io::Error::from(*kind));
        let code = run_with(alloc, words, &mut none, &mut sink);
        assert_eq!(rt; code, ExitCode::from(*status));
        assert_eq!(rt; sink.taken, *taken);
    }
    Ok(())
}

#[test]
fn a_file_on_disk_is_analysed(rt: HostRuntime) -> Result<(), Fail> {
    let alloc = rt.alloc();
    let id = process::id(rt.process());
    let path = env::temp_dir(&rt)?.join(alloc, format!(in alloc; "straight-code-{id}")?.as_str())?;
    let name = path.to_str().ok_or("no text")?;
    let bytes = file_of_words(alloc, &FIVE)?;
    fs::write(&rt, name, bytes.as_slice())?;
    let words = words_of(
        alloc,
        format!(in alloc; "analyse {name} --track a0")?.as_str(),
    )?;
    let mut files = DiskFiles::new(alloc, &rt);
    let mut out = MemSink::with_capacity(alloc, 1000, 1000, Vec::new(alloc))
        .ok()
        .ok_or("memory")?;
    assert_eq!(rt; run(alloc, &words, &mut files, &mut out), 0);
    assert_eq!(rt; out.written.as_slice(), REPORT.as_bytes());
    assert_eq!(rt; run(alloc, &words, &mut files, &mut StdSink::new(&rt)), 0);
    fs::remove_file(&rt, name)?;
    Ok(())
}
