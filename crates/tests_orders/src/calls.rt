//! Calls of orders over files in memory: `f`, and the report `r`.

ghost use Rattle.std.specs.Prelude.{◌≤◌};

use elf_write::file_of_words;
use outside_fakes::{MemFile, MemFiles, MemSink};
use std::alloc::{AllocError, Global};
use std::test::Fail;
use top_call::run;

pub(crate) const EBREAK: u32 = 0x00100073;

pub(crate) const USAGE: &str =
    "usage:\nanalyse FILE --track LIST\ncert FILE --track LIST\nlist FILE\nrun FILE REPORT --steps N [--regs R]\ngen N --track LIST\nupgrade FILE REPORT\nnarrow FILE --track LIST\nrefute FILE --track LIST --at POINT --row ROW\n";

/// auipc ra,0x0; jalr ra,12(ra); ebreak; jalr zero,0(ra)
pub(crate) const CALL: [u32; 4] = [0x00000097, 0x00c080e7, EBREAK, 0x00008067];

/// The words of an order.
pub(crate) fn words_of(alloc: Global, order: &str) -> Result<Vec<String>, AllocError> {
    let mut words = Vec::new(alloc);
    for word in order.split(' ') {
        words.push(String::from_str(alloc, word)?)?;
    }
    Ok(words)
}

fn file(alloc: Global, name: &str, contents: Vec<u8>) -> Result<MemFile, AllocError> {
    Ok(MemFile {
        name: String::from_str(alloc, name)?,
        contents,
        faults: 0,
    })
}

/// The file `f` with these bytes, read in pieces, whose call `fails` fails.
pub(crate) fn one_file(
    alloc: Global,
    bytes: Vec<u8>,
    piece: usize,
    fails: u64,
) -> Result<MemFiles, AllocError>
    requires { 1 ≤ piece }
{
    let file = file(alloc, "f", bytes)?;
    Ok(MemFiles {
        files: vec![in alloc; file]?,
        piece,
        fails: vec![in alloc; fails]?,
        calls: 0,
        faults: 0,
    })
}

/// The file `f` and the report `r`, read in pieces, whose call `fails` fails.
pub(crate) fn files_in_pieces(
    alloc: Global,
    bytes: Vec<u8>,
    report: Vec<u8>,
    piece: usize,
    fails: u64,
) -> Result<MemFiles, AllocError>
    requires { 1 ≤ piece }
{
    let mut files = one_file(alloc, bytes, piece, fails)?;
    let report = file(alloc, "r", report)?;
    files.files.push(report)?;
    Ok(files)
}

/// The file `f` and the report `r`.
pub(crate) fn two_files(
    alloc: Global,
    bytes: Vec<u8>,
    report: Vec<u8>,
) -> Result<MemFiles, AllocError> {
    files_in_pieces(alloc, bytes, report, 4096, 0)
}

/// A sink that takes its bytes in pieces.
pub(crate) fn sink(alloc: Global, piece: usize) -> Result<MemSink, Fail>
    requires { 1 ≤ piece }
{
    Ok(
        MemSink::with_capacity(alloc, 4096, piece, Vec::new(alloc))
            .ok()
            .ok_or("memory")?,
    )
}

/// The status and the text of the order over these files.
pub(crate) fn answer_over(
    alloc: Global,
    order: &str,
    files: &mut MemFiles,
    piece: usize,
) -> Result<(u8, Vec<u8>), Fail>
    requires { 1 ≤ piece }
{
    let words = words_of(alloc, order)?;
    let mut out = sink(alloc, piece)?;
    let status = run(alloc, &words, files, &mut out);
    Ok((status, out.written))
}

/// The status and the text of the order over the file `f` with these bytes, read and written in pieces.
pub(crate) fn answer_to(
    alloc: Global,
    order: &str,
    bytes: Vec<u8>,
    piece: usize,
) -> Result<(u8, Vec<u8>), Fail>
    requires { 1 ≤ piece }
{
    let mut files = one_file(alloc, bytes, piece, 0)?;
    answer_over(alloc, order, &mut files, piece)
}

/// Whether the order gets this status and text over the file `f` with these bytes.
pub(crate) fn gets(
    alloc: Global,
    order: &str,
    bytes: Vec<u8>,
    status: u8,
    text: &[u8],
) -> Result<bool, Fail> {
    let (answer, written) = answer_to(alloc, order, bytes, 4096)?;
    Ok(answer == status && written.as_slice() == text)
}

/// Whether the order gets this status and text over the file `f` with this code and the report `r`.
pub(crate) fn gets_over(
    alloc: Global,
    order: &str,
    code: &[u32],
    report: Vec<u8>,
    status: u8,
    text: &[u8],
) -> Result<bool, Fail> {
    let mut files = two_files(alloc, file_of_words(alloc, code)?, report)?;
    let (answer, written) = answer_over(alloc, order, &mut files, 4096)?;
    Ok(answer == status && written.as_slice() == text)
}
