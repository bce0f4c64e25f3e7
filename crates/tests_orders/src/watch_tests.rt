//! The top call under watches of its caller's.

ghost use Rattle.std.specs.Prelude.{◌≡◌, None, map, replicate, IfOk};
ghost use Rattle.run_answers.specs.Answers.{four_kinds};

use crate::calls::{sink, two_files, words_of};
use crate::code_tests::{RECURSION, RECURSION_CODE};
use elf_write::file_of_words;
use outside_fakes::{MemFiles, MemSink};
use run_watch::{CodeWatch, RelationWatch, ReturnWatch, StoreWatch, Watch};
use std::alloc::{AllocError, Global};
use std::test::Fail;
use top_call::affine_main;

/// The watches as a list.
fn in_order(
    alloc: Global,
    relations: Box<dyn Watch>,
    stores: Box<dyn Watch>,
    returns: Box<dyn Watch>,
    code: Box<dyn Watch>,
) -> Result<Vec<Box<dyn Watch>>, AllocError>
    requires kinds { (kind_of relations ≡ 1) × (kind_of stores ≡ 2) × (kind_of returns ≡ 3) × (kind_of code ≡ 4) }
    requires relations { state relations ≡ None }
    requires stores { state stores ≡ None }
    requires returns { state returns ≡ None }
    requires code { state code ≡ None }
    ensures kinds { IfOk result (λ watches. map (λ watch. kind_of watch) watches.items ≡ four_kinds) }
    ensures fresh { IfOk result (λ watches. map (λ watch. state watch) watches.items ≡ replicate 4 None) }
{
    let mut watches = Vec::new(alloc);
    watches.push(relations)?;
    watches.push(stores)?;
    watches.push(returns)?;
    watches.push(code)?;
    Ok(watches)
}

fn under_watches(
    alloc: Global,
    words: &[String],
    files: &mut MemFiles,
    out: &mut MemSink,
) -> Result<u8, AllocError> {
    let relations = Box::new(alloc, RelationWatch::new())?;
    let stores = Box::new(alloc, StoreWatch::new())?;
    let returns = Box::new(alloc, ReturnWatch::new())?;
    let code = Box::new(alloc, CodeWatch::new())?;
    let watches = in_order(alloc, relations, stores, returns, code)?;
    Ok(affine_main(alloc, words, files, out, watches))
}

/// Whether a run of the file and the report ends so under such watches.
fn runs_under_watches(alloc: Global, status: u8, text: &[u8]) -> Result<bool, Fail> {
    let words = words_of(alloc, "run f r --steps 100 --regs sp=0x20000")?;
    let report = Vec::from_slice(alloc, RECURSION.as_bytes())?;
    let mut files = two_files(alloc, file_of_words(alloc, &RECURSION_CODE)?, report)?;
    let mut out = sink(alloc, 4096)?;
    let answer = under_watches(alloc, &words, &mut files, &mut out)?;
    Ok(answer == status && out.written.as_slice() == text)
}

/// With a0 = 0 the procedure doesn't call itself, and returns to the `ebreak` at 0x1007c.
#[test]
fn a_run_under_watches(rt: HostRuntime) -> Result<(), Fail> {
    let verdict = b"affine-run 1\nsteps 7\nstop break 0x1007c\nend\n".as_slice();
    assert!(rt; runs_under_watches(rt.alloc(), 0, verdict)?);
    Ok(())
}
