//! Whether rows hold at points of small files.

use crate::calls::{EBREAK, USAGE, one_file, sink, words_of};
use crate::code_tests::RECURSION_CODE;
use elf_write::file_of_words;
use std::alloc::{AllocError, Global};
use std::test::Fail;
use top_call::run;

// addi a0,zero,5
const FIVE: [u32; 2] = [0x00500513, EBREAK];

// xori a0,a0,1
const UNKNOWN: [u32; 2] = [0x00154513, EBREAK];

// A call of a procedure that never ends: jal ra,8; ebreak; jal zero,0
const ENDLESS: [u32; 3] = [0x008000ef, EBREAK, 0x0000006f];

const HOLDS: &str = "affine-refute 1\nholds\nend\n";

// The list, the code, the point and the row of what holds.
const HOLDING: [(&str, &[u32], &str, &str); 5] = [
    ("a0", &FIVE, "0x10078,0x1007c", "1*a0 -5"),
    (
        "a0",
        &FIVE,
        "0x10078,0x1007c",
        "9223372036854775808*a0 +9223372036854775808",
    ),
    (
        "sp,ra,0x10080:-8",
        &RECURSION_CODE,
        "0x10080,0x10080",
        "4611686018427387904*ra",
    ),
    ("sp", &ENDLESS, "0x10078,0x1007c", "1*sp -7"),
    (
        "sp",
        &ENDLESS,
        "0x10078,0x1007c",
        "9223372036854775808*sp +1",
    ),
];

// The same of what doesn't hold, and with what the text ends: these values are those of every path that breaks the row.
const BROKEN: [(&str, &[u32], &str, &str, &str); 5] = [
    (
        "a0",
        &FIVE,
        "0x10078,0x1007c",
        "1*a0 -4",
        "path 2\nvalue 1\nend\n",
    ),
    (
        "a0",
        &FIVE,
        "0x10078,0x1007c",
        "1*a0 -9223372036854775807",
        "value 9223372036854775814\nend\n",
    ),
    (
        "0x10078:-8",
        &FIVE,
        "0x10078,0x1007c",
        "1*0x10078:-8",
        "start\n1 open 0x10078 1\n2 step 1 0x1007c\npath 2\nvalue 1\nend\n",
    ),
    (
        "a0",
        &UNKNOWN,
        "0x10078,0x1007c",
        "9223372036854775808*a0",
        "2 step 1 0x1007c 1\npath 2\nvalue 9223372036854775808\nend\n",
    ),
    (
        "sp,ra,0x10080:-8",
        &RECURSION_CODE,
        "0x10080,0x10080",
        "2305843009213693952*ra",
        "value 9223372036854775808\nend\n",
    ),
];

// The list, the point and the row of what is refused over the first file, and the line.
const REFUSED: [(&str, &str, &str, &str); 9] = [
    (
        "a0",
        "0x10078,0x1007c",
        "1*a1",
        "refused row UnknownName 1\n",
    ),
    (
        "a0",
        "0x10078,0x1007c",
        "1*a\n0",
        "refused row UnknownName 1\n",
    ),
    (
        "a0,a1",
        "0x10078,0x1007c",
        "1*a+0 +1",
        "refused row UnknownName 1\n",
    ),
    (
        "a0,a1",
        "0x10078,0x1007c",
        "1*a1 +1*a0 +1*zz",
        "refused row Order 2\n",
    ),
    (
        "a0,a1",
        "0x10078,0x1007c",
        "1*a1 +1*a1",
        "refused row Order 2\n",
    ),
    (
        "a0",
        "0x10078,0x10090",
        "1*zz",
        "refused NoSuchPoint 0x10090\n",
    ),
    (
        "a0",
        "0x1007c,0x10078",
        "1*a0",
        "refused NoSuchPoint 0x10078\n",
    ),
    ("a0", "0x0,0x0", "1*a0", "refused NoSuchPoint 0x0\n"),
    ("a0,a0", "0x0,0x0", "1*zz", "refused Repeated 2\n"),
];

// What is no row.
const NO_ROWS: [&str; 12] = [
    "0*a0",
    "1*a0 -0",
    "9223372036854775809*a0",
    "1*a0 -9223372036854775808",
    "-1*a0",
    "1*a0 1",
    "1*a0 +5 +1*a1",
    "1* +5",
    "5",
    "01*a0",
    "1*a0 ",
    "",
];

// What is no point.
const NO_POINTS: [&str; 8] = [
    "0x10078",
    "0x10078,0x1007c,",
    "0x010078,0x1007c",
    "0X10078,0x1007c",
    "0x10078, 0x1007c",
    "10078,1007c",
    "0x10078,0x1007C",
    "0x10078,0x10000000000000000",
];

fn order_of(alloc: Global, list: &str, at: &str, row: &str) -> Result<Vec<String>, AllocError> {
    let mut words = words_of(alloc, "refute f --track")?;
    for word in [list, "--at", at, "--row", row].iter() {
        words.push(String::from_str(alloc, word)?)?;
    }
    Ok(words)
}

// The status and the text that the order gets over this code.
fn answer(
    alloc: Global,
    list: &str,
    code: &[u32],
    at: &str,
    row: &str,
) -> Result<(u8, Vec<u8>), Fail> {
    let words = order_of(alloc, list, at, row)?;
    let mut files = one_file(alloc, file_of_words(alloc, code)?, 4096, 0)?;
    let mut out = sink(alloc, 4096)?;
    let status = run(alloc, &words, &mut files, &mut out);
    Ok((status, out.written))
}

fn all_hold(alloc: Global) -> Result<bool, Fail> {
    for (list, code, at, row) in HOLDING.iter() {
        let (status, text) = answer(alloc, list, code, at, row)?;
        if status != 0 || text.as_slice() != HOLDS.as_bytes() {
            return Ok(false);
        }
    }
    Ok(true)
}

fn all_break(alloc: Global) -> Result<bool, Fail> {
    for (list, code, at, row, end) in BROKEN.iter() {
        let (status, text) = answer(alloc, list, code, at, row)?;
        let begins = text.starts_with(b"affine-refute 1\nbroken\nstart");
        if status != 0 || !begins || !text.ends_with(end.as_bytes()) {
            return Ok(false);
        }
    }
    Ok(true)
}

fn all_refused(alloc: Global) -> Result<bool, Fail> {
    for (list, at, row, line) in REFUSED.iter() {
        let (status, text) = answer(alloc, list, &FIVE, at, row)?;
        if status != 1 || text.as_slice() != line.as_bytes() {
            return Ok(false);
        }
    }
    Ok(true)
}

fn is_usage(alloc: Global, at: &str, row: &str) -> Result<bool, Fail> {
    let (status, text) = answer(alloc, "a0", &FIVE, at, row)?;
    Ok(status == 2 && text.as_slice() == USAGE.as_bytes())
}

fn no_rows(alloc: Global) -> Result<bool, Fail> {
    for row in NO_ROWS.iter() {
        if !is_usage(alloc, "0x10078,0x1007c", row)? {
            return Ok(false);
        }
    }
    Ok(true)
}

fn no_points(alloc: Global) -> Result<bool, Fail> {
    for at in NO_POINTS.iter() {
        if !is_usage(alloc, at, "1*a0 -5")? {
            return Ok(false);
        }
    }
    Ok(true)
}

#[test]
fn rows_that_hold(rt: HostRuntime) -> Result<(), Fail> {
    assert!(rt; all_hold(rt.alloc())?);
    Ok(())
}

#[test]
fn rows_that_are_broken(rt: HostRuntime) -> Result<(), Fail> {
    assert!(rt; all_break(rt.alloc())?);
    Ok(())
}

#[test]
fn points_and_rows_that_are_refused(rt: HostRuntime) -> Result<(), Fail> {
    assert!(rt; all_refused(rt.alloc())?);
    Ok(())
}

#[test]
fn words_that_are_no_point_or_row(rt: HostRuntime) -> Result<(), Fail> {
    assert!(rt; no_rows(rt.alloc())?);
    assert!(rt; no_points(rt.alloc())?);
    Ok(())
}
