//! Each read and each put of whole orders fails in turn, in pieces of 1 and of 64 bytes.

ghost use Rattle.std.specs.Prelude.{◌≤◌};

use crate::calls::{EBREAK, files_in_pieces, words_of};
use crate::code_tests::{FRAME, FRAME_CODE};
use elf_write::file_of_words;
use outside_fakes::{MemFiles, MemSink};
use std::alloc::Global;
use std::test::Fail;
use top_call::run;

/// addi a0,zero,5; ebreak
const FIVE: &[u32] = &[0x00500513, EBREAK];

const FIVE_REPORT: &str =
    "affine-report 2\ntrack a0\nproc 0x10078\nat 0x10078\nnone\nat 0x1007c\nrel 1*a0 -5\nend\n";

/// addi a0,zero,0; addi a0,a0,8; bne a0,a1,-4; ebreak
const COUNTING: &[u32] = &[0x00000513, 0x00850513, 0xfeb51ee3, EBREAK];

const COUNTING_REPORT: &str =
    "affine-report 2\ntrack a0\nproc 0x10078\nat 0x10078\nnone\nat 0x1007c\nrel 2305843009213693952*a0\nat 0x10080\nrel 2305843009213693952*a0\nat 0x10084\nrel 2305843009213693952*a0\nend\n";

const WRONG: &str =
    "affine-report 1\ntrack a0\nproc 0x10078\nat 0x10078\nnone\nat 0x1007c\nrel 1*a0\nend\n";

/// An order over the file `f` and the report `r`, the code, the report, and the status and text without a fault.
struct Case {
    order: &'static str,
    code: &'static [u32],
    report: &'static str,
    status: u8,
    text: &'static str,
}

/// A line for each order; those over a frame are the ones that take long.
const CASES: [Case; 8] = [
    Case {
        order: "analyse f --track a0",
        code: FIVE,
        report: "",
        status: 0,
        text: FIVE_REPORT,
    },
    Case {
        order: "list f",
        code: FIVE,
        report: "",
        status: 0,
        text: "affine-list 1\nproc 0x10078\n0x10078 00500513 addi a0,zero,5\n0x1007c 00100073 ebreak\nend\n",
    },
    Case {
        order: "cert f --track sp",
        code: FIVE,
        report: "",
        status: 0,
        text: "affine-cert 1\ntrack sp\nproc 0x10078\nsp never\nend\n",
    },
    Case {
        order: "analyse f --track sp,ra,s0,a0,0x1008c:-8,0x1008c:-16",
        code: &FRAME_CODE,
        report: "",
        status: 0,
        text: FRAME,
    },
    Case {
        order: "run f r --steps 100 --regs a1=24",
        code: COUNTING,
        report: COUNTING_REPORT,
        status: 0,
        text: "affine-run 1\nsteps 7\nstop break 0x10084\nend\n",
    },
    Case {
        order: "run f r --steps 100 --regs a1=24",
        code: COUNTING,
        report: WRONG,
        status: 7,
        text: "affine-run 1\nsteps 7\nstop break 0x10084\nfound 1 step 3 at 0x1007c detail 0x0\nend\n",
    },
    Case {
        order: "upgrade f r",
        code: COUNTING,
        report: WRONG,
        status: 0,
        text: "affine-report 2\ntrack a0\nproc 0x10078\nat 0x10078\nnone\nat 0x1007c\nrel 1*a0\nend\n",
    },
    Case {
        order: "gen 1 --track a0",
        code: FIVE,
        report: "",
        status: 0,
        text: "affine-gen 1\nn 1\nbytes 164\npoints 11\nprocs 2\nrows 1\nunreached 0\nend\n",
    },
];

/// What a call of an order answered, with how many reads and puts it made.
#[derive(Drop)]
struct Ended {
    status: u8,
    written: Vec<u8>,
    reads: u64,
    puts: u64,
}

/// The order in pieces, whose read and whose put of these numbers fail; none has the number 0.
fn answer_of(alloc: Global, case: &Case, piece: usize, read: u64, put: u64) -> Result<Ended, Fail>
    requires { 1 ≤ piece }
{
    let words = words_of(alloc, case.order)?;
    let file = file_of_words(alloc, case.code)?;
    let report = Vec::from_slice(alloc, case.report.as_bytes())?;
    let mut files: MemFiles = files_in_pieces(alloc, file, report, piece, read)?;
    let mut out = MemSink::with_capacity(alloc, 4096, piece, vec![in alloc; put]?)
        .ok()
        .ok_or("memory")?;
    let status = run(alloc, &words, &mut files, &mut out);
    Ok(Ended {
        status,
        written: out.written,
        reads: files.calls,
        puts: out.calls,
    })
}

/// Whether with no fault the order ends as it is to, and each read that fails is told, and behind each put that fails the
/// pieces before it stand.
fn faults_are_told(alloc: Global, case: &Case, piece: usize) -> Result<bool, Fail>
    requires { 1 ≤ piece }
{
    let sound = answer_of(alloc, case, piece, 0, 0)?;
    if sound.status != case.status || sound.written.as_slice() != case.text.as_bytes() {
        return Ok(false);
    }
    for k in 1..=sound.reads {
        let failed = answer_of(alloc, case, piece, k, 0)?;
        if failed.status != 3 || failed.written.as_slice() != b"read fault\n".as_slice() {
            return Ok(false);
        }
    }
    for k in 1..=sound.puts {
        let failed = answer_of(alloc, case, piece, 0, k)?;
        if failed.status != 4 || failed.written.len() >= case.text.len() {
            return Ok(false);
        }
        if !case.text.as_bytes().starts_with(&failed.written) {
            return Ok(false);
        }
    }
    Ok(true)
}

fn all_faults_are_told(alloc: Global, cases: &[Case]) -> Result<bool, Fail> {
    for case in cases.iter() {
        for piece in [1, 64] {
            if !faults_are_told(alloc, case, piece)? {
                return Ok(false);
            }
        }
    }
    Ok(true)
}

#[test]
fn each_fault_is_told(rt: HostRuntime) -> Result<(), Fail> {
    assert!(rt; all_faults_are_told(rt.alloc(), &CASES)?);
    Ok(())
}
