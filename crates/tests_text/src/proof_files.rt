//! Proof files as text, and lines of them.

use proof_lines::{Line, read_line};
use proof_text::{ProofFile, sparse_rows, write_proof};
use report_read::read_report;
use sqlite_items::Items;
use std::alloc::{AllocError, Global};
use word_rows::Row;

/// How many words a row has, a text, and what the line of that text tells.
const LINES: [(u64, &str, &str); 20] = [
    (289, "head 0x10078 0x1007c", "head"),
    (289, "head 0x10078 exit", "exit"),
    (289, "entry 0x10078", "entry"),
    (289, "row 0:0x1 288:0x1", "row"),
    (17, "row 16:0xffffffffffffffff", "row"),
    (0, "claims", "claims"),
    (289, "row 289:0x1", ""),
    (17, "row 17:0x1", ""),
    (0, "row 0:0x1", ""),
    (289, "row 0:0x0 288:0x1", ""),
    (289, "row 0:0x01", ""),
    (289, "row 0:0xFF", ""),
    (289, "row 00:0x1", ""),
    (289, "row 288:0x1 0:0x1", ""),
    (289, "row 0:0x1 0:0x1", ""),
    (289, "row", ""),
    (289, "row 0:0x1  288:0x1", ""),
    (289, "head 0x10078", ""),
    (289, "head 0x10078 0x1007C", ""),
    (289, "claims ", ""),
];

fn kind_of(line: &Line) -> &'static str {
    match line {
        Line::Head { address: None, .. } => "exit",
        Line::Head { .. } => "head",
        Line::Entry { .. } => "entry",
        Line::Row(_) => "row",
        Line::Claims => "claims",
    }
}

fn lines_are_read(alloc: Global) -> Result<bool, AllocError> {
    for (width, text, kind) in LINES.iter() {
        if *width > 512 {
            return Ok(false);
        }
        let told = match read_line(alloc, *width, text.as_bytes())? {
            None => "",
            Some(line) => kind_of(&line),
        };
        if told != *kind {
            return Ok(false);
        }
    }
    Ok(true)
}

// The words of a row that aren't 0, by position.
fn words_of(alloc: Global, row: Row<17>) -> Result<Vec<(u16, u64)>, AllocError> {
    let mut words = Vec::new(alloc);
    for sparse in sparse_rows(alloc, &[row])?.as_slice() {
        for item in sparse.words.as_slice() {
            words.push((item.position, item.word))?;
        }
    }
    Ok(words)
}

fn are_words(alloc: Global) -> Result<bool, AllocError> {
    let words = words_of(alloc, Row::<17>::zero().with(0, 5).with(16, 1))?;
    Ok(words.as_slice() == [(0, 5), (16, 1)].as_slice())
}

// The text of a file without heads, procedures and claims.
fn text_of(alloc: Global) -> Result<Vec<u8>, AllocError> {
    match read_report(alloc, b"affine-report 1\ntrack a0\nend\n") {
        Err(_) => Ok(Vec::new(alloc)),
        Ok(report) => {
            let (heads, entries) = (Items::new(alloc), Items::new(alloc));
            let file = ProofFile {
                tracked: report.tracked,
                heads,
                entries,
                claims: Items::new(alloc),
            };
            write_proof(alloc, &file)
        }
    }
}

fn is_written(alloc: Global) -> Result<bool, AllocError> {
    let text = text_of(alloc)?;
    Ok(text.as_slice() == b"affine-proof 1\ntrack a0\nclaims\nend\n".as_slice())
}

#[test]
fn lines_of_proof_files(rt: HostRuntime) {
    assert!(rt; lines_are_read(rt.alloc()) == Ok(true));
}

#[test]
fn proof_files_as_text(rt: HostRuntime) {
    assert!(rt; are_words(rt.alloc()) == Ok(true));
    assert!(rt; is_written(rt.alloc()) == Ok(true));
}
