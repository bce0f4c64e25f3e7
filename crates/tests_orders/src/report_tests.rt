//! Orders over a file and a report: runs that are checked, reports that are refused, and upgrades.

use crate::calls::{EBREAK, USAGE, answer_to, gets_over};
use crate::code_tests::{FRAME_CODE, RECURSION, RECURSION_CODE};
use elf_write::file_of_words;
use std::alloc::{AllocError, Global};
use std::test::Fail;

/// addi a0,zero,5; ebreak
const FIVE: &[u32] = &[0x00500513, EBREAK];

/// addi a0,zero,0; addi a0,a0,8; bne a0,a1,-4; ebreak
const COUNTING: &[u32] = &[0x00000513, 0x00850513, 0xfeb51ee3, EBREAK];

/// jal ra,8; ebreak; jal ra,0; ebreak
const ENDLESS: &[u32] = &[0x008000ef, EBREAK, 0x000000ef, EBREAK];

/// jal ra,8; ebreak; addi sp,sp,-16; sd ra,8(sp); sd zero,0(a0); ld ra,8(sp); addi sp,sp,16; jalr zero,0(ra)
const STRAY_STORE: &[u32] = &[
    0x008000ef, EBREAK, 0xff010113, 0x00113423, 0x00053023, 0x00813083, 0x01010113, 0x00008067,
];

/// A procedure with a frame pointer, whose callee sets s0 to 0.
const LOST_FRAME: &[u32] = &[
    0x008000ef, EBREAK, 0xff010113, 0x00113423, 0x00813023, 0x01010413, 0x014000ef, 0xff843083,
    0xff043403, 0x01010113, 0x00008067, 0x00000413, 0x00008067,
];

/// addi a0,zero,1; ecall; ebreak
const SYSTEM: &[u32] = &[0x00100513, 0x00000073, EBREAK];

/// A run against the file's own report: the code, the order that makes the report, the order that makes the run, the status
/// and the text.
const RUNS: [(&[u32], &str, &str, u8, &str); 9] = [
    (
        FIVE,
        "analyse f --track a0",
        "run f r --steps 1",
        0,
        "affine-run 1\nsteps 1\nstop budget\nend\n",
    ),
    (
        COUNTING,
        "analyse f --track a0",
        "run f r --steps 100 --regs a1=24",
        0,
        "affine-run 1\nsteps 7\nstop break 0x10084\nend\n",
    ),
    (
        COUNTING,
        "analyse f --track a0",
        "run f r --steps 100 --regs a1=20",
        0,
        "affine-run 1\nsteps 100\nstop budget\nend\n",
    ),
    (
        COUNTING,
        "analyse f --track a0",
        "run f r --steps 0",
        0,
        "affine-run 1\nsteps 0\nstop budget\nend\n",
    ),
    (
        STRAY_STORE,
        "analyse f --track sp,ra,0x10080:-8",
        "run f r --steps 100 --regs sp=0x20000,a0=0x1fff8",
        7,
        "affine-run 1\nsteps 7\nstop left 0x0\nfound 1 step 4 at 0x1008c detail 0x1\nfound 2 step 3 at 0x10088 detail 0x1fff8\nfound 3 step 6 at 0x10094 detail 0x0\nend\n",
    ),
    (
        &FRAME_CODE,
        "analyse f --track sp,ra,s0,a0,0x1008c:-8,0x1008c:-16",
        "run f r --steps 100 --regs a0=3",
        0,
        "affine-run 1\nsteps 16\nstop break 0x10088\nend\n",
    ),
    (
        LOST_FRAME,
        "analyse f --track s0",
        "run f r --steps 100 --regs sp=0x20000",
        7,
        "affine-run 1\nsteps 12\nstop left 0x0\nfound 3 step 7 at 0x100a8 detail 0x10094\nend\n",
    ),
    (
        SYSTEM,
        "analyse f --track a0,a1",
        "run f r --steps 9 --regs a7=93",
        0,
        "affine-run 1\nsteps 1\nstop exit 1\nend\n",
    ),
    (
        SYSTEM,
        "analyse f --track a0,a1",
        "run f r --steps 9 --regs a7=64",
        0,
        "affine-run 1\nsteps 1\nstop ecall 64\nend\n",
    ),
];

// Whether the run gets this status and text over the file's own report, which the order makes.
fn runs_so(
    alloc: Global,
    code: &[u32],
    order: &str,
    run: &str,
    status: u8,
    text: &str,
) -> Result<bool, Fail> {
    let (_, report) = answer_to(alloc, order, file_of_words(alloc, code)?, 4096)?;
    gets_over(alloc, run, code, report, status, text.as_bytes())
}

fn all_run_so(alloc: Global, cases: &[(&[u32], &str, &str, u8, &str)]) -> Result<bool, Fail> {
    for (code, order, run, status, text) in cases.iter() {
        if !runs_so(alloc, code, order, run, *status, text)? {
            return Ok(false);
        }
    }
    Ok(true)
}

#[test]
fn runs_against_own_reports(rt: HostRuntime) -> Result<(), Fail> {
    assert!(rt; all_run_so(rt.alloc(), &RUNS)?);
    Ok(())
}

/// Each call opens an activation, until there are as many as there may be.
#[test]
fn a_recursion_to_the_depth_limit(rt: HostRuntime) -> Result<(), Fail> {
    let verdict = "affine-run 1\nsteps 65535\nstop depth 65536\nend\n";
    let run = "run f r --steps 100000";
    assert!(rt; runs_so(rt.alloc(), ENDLESS, "analyse f --track a0", run, 0, verdict)?);
    Ok(())
}

const TOP: &str = "affine-report 1\ntrack a0\nproc 0x10078\nat 0x10078\nnone\n";

/// What stands below `TOP` in a report for `FIVE`, and the line of what the report is refused for.
const REFUSED: [(&str, &str); 11] = [
    (
        "at 0x1007c\nrel 1*a0 -0\nend\n",
        "refused report Syntax 7\n",
    ),
    (
        "at 0x1007c\nrel 1*a0 -9223372036854775808\nend\n",
        "refused report Syntax 7\n",
    ),
    (
        "at 0x1007c\nrel +1*a0 -5\nend\n",
        "refused report Syntax 7\n",
    ),
    (
        "at 0x1007c\nrel 1*a1 -5\nend\n",
        "refused report UnknownName 7\n",
    ),
    ("at 0x10078\nrel 1*a0 -5\nend\n", "refused report Order 6\n"),
    (
        "at 0x1007c\nrel 3*a0\nend\n",
        "refused report NotReduced 6\n",
    ),
    (
        "at 0x1007c\nrel 2*a0 -1\nend\n",
        "refused report NotReduced 6\n",
    ),
    ("at 0x1007c\nrel 1*a0 -5\n", "refused report Syntax 8\n"),
    (
        "at 0x1007c\nrel 1*a0 -5\nend\nend\n",
        "refused report Syntax 9\n",
    ),
    (
        "at 0x10090\nrel 1*a0 -5\nend\n",
        "refused report NotAPoint 0x10090\n",
    ),
    ("end\n\n", "refused report Syntax 7\n"),
];

fn is_refused(alloc: Global, order: &str, tail: &str, line: &str) -> Result<bool, Fail> {
    let mut report = Vec::from_slice(alloc, TOP.as_bytes())?;
    report.extend_from_slice(tail.as_bytes())?;
    gets_over(alloc, order, FIVE, report, 6, line.as_bytes())
}

fn all_refused(alloc: Global, cases: &[(&str, &str)]) -> Result<bool, Fail> {
    for (tail, line) in cases.iter() {
        if !is_refused(alloc, "run f r --steps 1", tail, line)?
            || !is_refused(alloc, "upgrade f r", tail, line)?
        {
            return Ok(false);
        }
    }
    Ok(true)
}

#[test]
fn refused_reports(rt: HostRuntime) -> Result<(), Fail> {
    assert!(rt; all_refused(rt.alloc(), &REFUSED)?);
    Ok(())
}

/// A report of `COUNTING` that says a0 is 0 where it is only a multiple of 8.
const WRONG: &str =
    "affine-report 1\ntrack a0\nproc 0x10078\nat 0x10078\nnone\nat 0x1007c\nrel 1*a0\nend\n";

// The order, the code, the report, the status and the text.
const CASES: [(&str, &[u32], &str, u8, &str); 15] = [
    (
        "run f r --steps 100 --regs a1=24",
        COUNTING,
        WRONG,
        7,
        "affine-run 1\nsteps 7\nstop break 0x10084\nfound 1 step 3 at 0x1007c detail 0x0\nend\n",
    ),
    (
        "run f r --steps 1",
        FIVE,
        "",
        6,
        "refused report Syntax 1\n",
    ),
    ("run f g --steps 1", FIVE, "", 3, "read fault\n"),
    ("run g r --steps 1", FIVE, "", 3, "read fault\n"),
    (
        "run f r --steps 1",
        &[0],
        "",
        1,
        "refused NoInstruction 00000000 at 0x10078\n",
    ),
    (
        "run f g --steps 1",
        &[0],
        "",
        1,
        "refused NoInstruction 00000000 at 0x10078\n",
    ),
    ("run f r --steps 1 --regs zero=1", FIVE, "", 2, USAGE),
    ("run f r --steps 1 --regs a0=1,x10=2", FIVE, "", 2, USAGE),
    ("run f r --steps 1 --regs a0", FIVE, "", 2, USAGE),
    (
        "run f r --steps 1",
        FIVE,
        "affine-report 1\ntrack 0x10080:-8\nproc 0x10090\nat 0x10090\nnone\nend\n",
        6,
        "refused report NotAPoint 0x10080\n",
    ),
    ("upgrade g r", FIVE, "", 3, "read fault\n"),
    (
        "upgrade f g",
        &[0],
        "",
        1,
        "refused NoInstruction 00000000 at 0x10078\n",
    ),
    (
        "upgrade f r",
        FIVE,
        "affine-report 1\ntrack ra,a0\nend\n",
        0,
        "affine-report 2\ntrack ra,a0\nend\n",
    ),
    (
        "upgrade f r",
        FIVE,
        "affine-report 1\ntrack ra,a0\nproc 0x10078\nat 0x1007c\nrel 1*a0 -5\nend\n",
        0,
        "affine-report 2\ntrack ra,a0\nproc 0x10078\ncert ra never\nat 0x1007c\nrel 1*a0 -5\nend\n",
    ),
    (
        "upgrade f r",
        FIVE,
        "affine-report 2\ntrack a0\nproc 0x10090\nat 0x10090\nnone\nend\n",
        6,
        "refused report AlreadyNew\n",
    ),
];

fn all_get(alloc: Global, cases: &[(&str, &[u32], &str, u8, &str)]) -> Result<bool, Fail> {
    for (order, code, report, status, text) in cases.iter() {
        let report = Vec::from_slice(alloc, report.as_bytes())?;
        if !gets_over(alloc, order, code, report, *status, text.as_bytes())? {
            return Ok(false);
        }
    }
    Ok(true)
}

#[test]
fn orders_over_a_file_and_a_report(rt: HostRuntime) -> Result<(), Fail> {
    assert!(rt; all_get(rt.alloc(), &CASES)?);
    Ok(())
}

// A report as it is without certificates, in version 1.
fn without_certs(alloc: Global, report: &str) -> Result<Vec<u8>, AllocError> {
    let mut old = Vec::from_slice(alloc, b"affine-report 1\n")?;
    for line in report.split('\n').skip(1) {
        if !line.is_empty() && !line.starts_with("cert ") {
            old.extend_from_slice(line.as_bytes())?;
            old.extend_from_slice(b"\n")?;
        }
    }
    Ok(old)
}

#[test]
fn upgrades(rt: HostRuntime) -> Result<(), Fail> {
    let alloc = rt.alloc();
    let old = without_certs(alloc, RECURSION)?;
    let new = RECURSION.as_bytes();
    assert!(rt; gets_over(alloc, "upgrade f r", &RECURSION_CODE, old, 0, new)?);
    let new = Vec::from_slice(alloc, new)?;
    let again = b"refused report AlreadyNew\n";
    assert!(rt; gets_over(alloc, "upgrade f r", &RECURSION_CODE, new, 6, again)?);
    Ok(())
}

/// Branches each to the next instruction, one too many.
#[test]
fn an_upgrade_of_too_many_heads(rt: HostRuntime) -> Result<(), Fail> {
    let alloc = rt.alloc();
    let mut branches = vec![in alloc; 0x00050463; 4094]?;
    branches.extend_from_slice(&[EBREAK, EBREAK])?;
    let none = Vec::from_slice(alloc, b"affine-report 1\ntrack a0\nend\n")?;
    let line = b"refused TooManyHeads 4096\n";
    assert!(rt; gets_over(alloc, "upgrade f r", &branches, none, 1, line)?);
    Ok(())
}
