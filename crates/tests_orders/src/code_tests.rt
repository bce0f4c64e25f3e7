//! Worked reports and certificates, of straight code and of code with calls.

use crate::calls::{CALL, EBREAK, answer_to, gets};
use elf_write::{
    FileHeader, SegmentHeader, file_of_words, push_file_header, push_program_header, push_words,
};
use std::alloc::{AllocError, Global};
use std::test::Fail;

const TRIPLE: [u32; 3] = [0x00151593, 0x00A585B3, EBREAK];

// The list, the code, and what stands under the line of each point.
const RELATIONS: [(&str, &[u32], &[&str]); 11] = [
    ("a0", &[EBREAK], &["none"]),
    ("a0", &[0x00500513, EBREAK], &["none", "rel 1*a0 -5"]),
    (
        "a0,a1",
        &TRIPLE,
        &[
            "none",
            "rel 2*a0 +9223372036854775807*a1\nrel 9223372036854775808*a1",
            "rel 1*a0 +6148914691236517205*a1",
        ],
    ),
    (
        "a1,a0",
        &TRIPLE,
        &["none", "rel 1*a1 -2*a0", "rel 1*a1 -3*a0"],
    ),
    ("a0", &[0x03F51513, EBREAK], &["none", "rel 2*a0"]),
    (
        "a0,a1",
        &[0xFFF54593, EBREAK],
        &["none", "rel 1*a0 +1*a1 +1"],
    ),
    ("a0,a1", &[0x00154593, EBREAK], &["none", "none"]),
    (
        "a0",
        &[0x80000537, EBREAK],
        &["none", "rel 1*a0 +2147483648"],
    ),
    ("a0", &[0x00001517, EBREAK], &["none", "rel 1*a0 -69752"]),
    (
        "a0,a1,a2",
        &[0x40A58633, EBREAK],
        &["none", "rel 1*a0 -1*a1 +1*a2"],
    ),
    (
        "a0,a1",
        &[0x00100513, 0x00000073, EBREAK],
        &["none", "rel 1*a0 -1", "none"],
    ),
];

// The order's words, with the list last.
fn order_of(alloc: Global, words: &str, list: &str) -> Result<String, AllocError> {
    let mut order = String::from_str(alloc, words)?;
    order.push_str(list)?;
    Ok(order)
}

// The report of a small file, by what stands under the line of each point.
fn report_with(alloc: Global, list: &str, points: &[&str]) -> Result<Vec<u8>, AllocError> {
    let mut report = Vec::from_slice(alloc, b"affine-report 2\ntrack ")?;
    report.extend_from_slice(list.as_bytes())?;
    report.extend_from_slice(b"\nproc 0x10078\n")?;
    for (address, point) in ["0x10078", "0x1007c", "0x10080"].iter().zip(points) {
        push_point(&mut report, address, point)?;
    }
    report.extend_from_slice(b"end\n")?;
    Ok(report)
}

fn push_point(report: &mut Vec<u8>, address: &str, point: &str) -> Result<(), AllocError> {
    report.extend_from_slice(b"at ")?;
    report.extend_from_slice(address.as_bytes())?;
    report.extend_from_slice(b"\n")?;
    report.extend_from_slice(point.as_bytes())?;
    report.extend_from_slice(b"\n")
}

fn tells(alloc: Global, list: &str, code: &[u32], points: &[&str]) -> Result<bool, Fail> {
    let order = order_of(alloc, "analyse f --track ", list)?;
    let report = report_with(alloc, list, points)?;
    gets(
        alloc,
        order.as_str(),
        file_of_words(alloc, code)?,
        0,
        &report,
    )
}

fn all_tell(alloc: Global, cases: &[(&str, &[u32], &[&str])]) -> Result<bool, Fail> {
    for (list, code, points) in cases.iter() {
        if !tells(alloc, list, code, points)? {
            return Ok(false);
        }
    }
    Ok(true)
}

#[test]
fn relations_of_straight_code(rt: HostRuntime) -> Result<(), Fail> {
    assert!(rt; all_tell(rt.alloc(), &RELATIONS)?);
    Ok(())
}

const WRAPPED: &str =
    "affine-report 2\ntrack a0\nproc 0xfffffffffffffff8\nat 0x0\nrel 1*a0 -3\nat 0x4\nrel 1*a0 -24\nat 0xfffffffffffffff8\nnone\nat 0xfffffffffffffffc\nrel 1*a0 -1\nend\n";

// A file of two segments, of which the second begins at address 0, behind the first.
fn wrapped_file(alloc: Global) -> Result<Vec<u8>, AllocError> {
    let mut bytes = Vec::new(alloc);
    push_file_header(
        &mut bytes,
        &FileHeader {
            entry: u64::MAX - 7,
            flags: 0,
            segments: 2,
            sections_at: 0,
            sections: 0,
            names_section: 0,
        },
    )?;
    for place in [(176, u64::MAX - 7), (184, 0)].iter() {
        push_segment(&mut bytes, place.0, place.1)?;
    }
    push_words(&mut bytes, &[0x00100513, 0x00250513, 0x00351513, EBREAK])?;
    Ok(bytes)
}

fn push_segment(bytes: &mut Vec<u8>, offset: u64, address: u64) -> Result<(), AllocError> {
    push_program_header(
        bytes,
        &SegmentHeader {
            offset,
            address,
            stored: 8,
            size: 8,
            flags: 5,
        },
    )
}

#[test]
fn straight_code_goes_on_at_address_0(rt: HostRuntime) -> Result<(), Fail> {
    let alloc = rt.alloc();
    assert!(rt;
        gets(
            alloc,
            "analyse f --track a0",
            wrapped_file(alloc)?,
            0,
            WRAPPED.as_bytes()
        )?
    );
    Ok(())
}

// The worked reports: calls, recursion with a slot, a loop, code behind a call that doesn't return.
pub(crate) const RECURSION: &str =
    "affine-report 2\ntrack sp,ra,0x10080:-8\nproc 0x10078\ncert sp never\ncert ra never\nat 0x10078\nnone\nat 0x1007c\nrel 1*ra -65660\nproc 0x10080\ncert sp granted\ncert ra granted\nat 0x10080\nrel 4611686018427387904*ra\nat 0x10084\nrel 4611686018427387904*ra\nat 0x10088\nrel 1*ra +4611686018427387903*0x10080:-8\nrel 4611686018427387904*0x10080:-8\nat 0x1008c\nrel 1*ra +4611686018427387903*0x10080:-8\nrel 4611686018427387904*0x10080:-8\nat 0x10090\nrel 4611686018427387904*ra\nrel 4611686018427387904*0x10080:-8\nat 0x10094\nrel 1*ra +4611686018427387903*0x10080:-8\nrel 4611686018427387904*0x10080:-8\nat 0x10098\nrel 1*ra +4611686018427387903*0x10080:-8\nrel 4611686018427387904*0x10080:-8\nend\n";

pub(crate) const FRAME: &str =
    "affine-report 2\ntrack sp,ra,s0,a0,0x1008c:-8,0x1008c:-16\nproc 0x10078\ncert sp never\ncert ra never\ncert s0 never\nat 0x10078\nnone\nat 0x1007c\nrel 1*sp -69752\nat 0x10080\nrel 1*sp -69632\nat 0x10084\nrel 1*sp -69632\nrel 1*ra -65664\nat 0x10088\nrel 1*sp -69632\nrel 1*ra -65672\nproc 0x1008c\ncert sp granted\ncert ra granted\ncert s0 granted\nat 0x1008c\nrel 1*sp -69632\nrel 1*ra -65672\nat 0x10090\nrel 1*sp -69600\nrel 1*ra -65672\nat 0x10094\nrel 1*sp -69600\nrel 1*ra -65672\nrel 1*s0 -1*0x1008c:-16\nat 0x10098\nrel 1*sp -69600\nrel 1*ra -65672\nrel 1*s0 -1*0x1008c:-16\nrel 1*0x1008c:-8 -65672\nat 0x1009c\nrel 1*sp -69600\nrel 1*ra -65672\nrel 1*s0 -1*a0\nrel 1*0x1008c:-8 -65672\nat 0x100a0\nrel 1*sp -69600\nrel 1*ra -65696\nrel 4*s0 +4611686018427387903*a0\nrel 4611686018427387904*a0\nrel 1*0x1008c:-8 -65672\nat 0x100a4\nrel 1*sp -69600\nrel 1*ra -65696\nrel 1*s0 +3689348814741910323*a0\nrel 1*0x1008c:-8 -65672\nat 0x100a8\nrel 1*sp -69600\nrel 1*ra -65672\nrel 1*s0 +3689348814741910323*a0\nrel 1*0x1008c:-8 -65672\nat 0x100ac\nrel 1*sp -69600\nrel 1*ra -65672\nrel 1*s0 -1*0x1008c:-16\nrel 1*0x1008c:-8 -65672\nat 0x100b0\nrel 1*sp -69632\nrel 1*ra -65672\nrel 1*s0 -1*0x1008c:-16\nrel 1*0x1008c:-8 -65672\nproc 0x100b4\ncert sp granted\ncert ra granted\ncert s0 granted\nat 0x100b4\nrel 1*sp -69600\nrel 1*ra -65696\nrel 1*s0 -1*a0\nat 0x100b8\nrel 1*sp -69600\nrel 1*ra -65696\nrel 4*s0 +4611686018427387903*a0\nrel 4611686018427387904*a0\nend\n";

const LOOP: &str =
    "affine-report 2\ntrack a0\nproc 0x10078\nat 0x10078\nnone\nat 0x1007c\nrel 2305843009213693952*a0\nat 0x10080\nrel 2305843009213693952*a0\nat 0x10084\nrel 2305843009213693952*a0\nend\n";

const NO_RETURN: &str =
    "affine-report 2\ntrack sp\nproc 0x10078\ncert sp never\nat 0x10078\nnone\nat 0x1007c\nunreached\nproc 0x10080\ncert sp never\nat 0x10080\nnone\nend\n";

const PAIR: &str =
    "affine-report 2\ntrack ra\nproc 0x10078\ncert ra never\nat 0x10078\nnone\nat 0x1007c\nrel 1*ra -65656\nat 0x10080\nrel 1*ra -65664\nproc 0x10084\ncert ra granted\nat 0x10084\nrel 1*ra -65664\nend\n";

pub(crate) const FRAME_CODE: [u32; 17] = [
    0x00001117, 0xf8810113, 0x00000097, 0x00c080e7, 0x00100073, 0xfe010113, 0x00813823, 0x00113c23,
    0x00050413, 0x018000ef, 0x00850533, 0x01813083, 0x01013403, 0x02010113, 0x00008067, 0x00251513,
    0x00008067,
];

// jal ra,8; ebreak; addi sp,sp,-16; sd ra,8(sp); beq a0,zero,8; jal ra,-12; ld ra,8(sp); addi sp,sp,16; ret
pub(crate) const RECURSION_CODE: [u32; 9] = [
    0x008000EF, EBREAK, 0xFF010113, 0x00113423, 0x00050463, 0xFF5FF0EF, 0x00813083, 0x01010113,
    0x00008067,
];

// jal ra,8; ebreak; jal zero,0
const NO_RETURN_CODE: [u32; 3] = [0x008000EF, EBREAK, 0x0000006F];

// jal ra,8; ebreak; addi sp,sp,-16; sd ra,8(sp); sw zero,8(sp); ld ra,8(sp); addi sp,sp,16; ret
const INTO_SLOT_CODE: [u32; 8] = [
    0x008000EF, EBREAK, 0xFF010113, 0x00113423, 0x00012423, 0x00813083, 0x01010113, 0x00008067,
];

// The same with sw zero,4(sp)
const BESIDE_SLOT_CODE: [u32; 8] = [
    0x008000EF, EBREAK, 0xFF010113, 0x00113423, 0x00012223, 0x00813083, 0x01010113, 0x00008067,
];

// jal ra,8; ebreak; addi sp,sp,-16; sd ra,8(sp); sd s0,0(sp); addi s0,sp,16; jal ra,20; ld ra,-8(s0);
// ld s0,-16(s0); addi sp,sp,16; ret; ret
const FRAME_POINTER_CODE: [u32; 12] = [
    0x008000EF, EBREAK, 0xFF010113, 0x00113423, 0x00813023, 0x01010413, 0x014000EF, 0xFF843083,
    0xFF043403, 0x01010113, 0x00008067, 0x00008067,
];

const GIVEN_BACK: &str = "proc 0x10078\nsp never\nra never\nproc 0x10080\nsp granted\nra granted\n";

const LOST: &str = "proc 0x10078\nsp never\nra never\nproc 0x10080\nsp granted\nra broken\n";

const SAVED: &str =
    "proc 0x10078\nsp never\nra never\ns0 never\nproc 0x1008c\nsp granted\nra granted\ns0 granted\nproc 0x100b4\nsp granted\nra granted\ns0 granted\n";

const FRAME_POINTER: &str =
    "proc 0x10078\nsp never\nra never\ns0 never\nproc 0x10080\nsp granted\nra granted\ns0 granted\nproc 0x100a4\nsp granted\nra granted\ns0 granted\n";

const NEVER: &str = "proc 0x10078\nsp never\nproc 0x10080\nsp never\n";

// The list, the code, and what stands for its procedures.
const CERTIFICATES: [(&str, &[u32], &str); 7] = [
    ("sp,ra,0x10080:-8", &RECURSION_CODE, GIVEN_BACK),
    ("sp,ra", &RECURSION_CODE, LOST),
    ("sp,ra,0x10080:-8", &INTO_SLOT_CODE, LOST),
    ("sp,ra,0x10080:-8", &BESIDE_SLOT_CODE, GIVEN_BACK),
    ("sp,ra,s0,a0,0x1008c:-8,0x1008c:-16", &FRAME_CODE, SAVED),
    (
        "sp,ra,s0,0x10080:-8,0x10080:-16",
        &FRAME_POINTER_CODE,
        FRAME_POINTER,
    ),
    ("sp", &NO_RETURN_CODE, NEVER),
];

// The certificates of a file, by what stands for its procedures.
fn certs_with(alloc: Global, list: &str, procedures: &str) -> Result<Vec<u8>, AllocError> {
    let mut text = Vec::from_slice(alloc, b"affine-cert 1\ntrack ")?;
    text.extend_from_slice(list.as_bytes())?;
    text.extend_from_slice(b"\n")?;
    text.extend_from_slice(procedures.as_bytes())?;
    text.extend_from_slice(b"end\n")?;
    Ok(text)
}

fn certifies(alloc: Global, list: &str, code: &[u32], procedures: &str) -> Result<bool, Fail> {
    let order = order_of(alloc, "cert f --track ", list)?;
    let text = certs_with(alloc, list, procedures)?;
    gets(alloc, order.as_str(), file_of_words(alloc, code)?, 0, &text)
}

fn all_certify(alloc: Global, cases: &[(&str, &[u32], &str)]) -> Result<bool, Fail> {
    for (list, code, procedures) in cases.iter() {
        if !certifies(alloc, list, code, procedures)? {
            return Ok(false);
        }
    }
    Ok(true)
}

#[test]
fn certificates_of_code_with_calls(rt: HostRuntime) -> Result<(), Fail> {
    assert!(rt; all_certify(rt.alloc(), &CERTIFICATES)?);
    Ok(())
}

// The list, the code and the report.
const REPORTS: [(&str, &[u32], &str); 5] = [
    ("sp,ra,0x10080:-8", &RECURSION_CODE, RECURSION),
    ("sp,ra,s0,a0,0x1008c:-8,0x1008c:-16", &FRAME_CODE, FRAME),
    // addi a0,zero,0; addi a0,a0,8; bne a0,a1,-4; ebreak
    ("a0", &[0x00000513, 0x00850513, 0xFEB51EE3, EBREAK], LOOP),
    ("sp", &NO_RETURN_CODE, NO_RETURN),
    ("ra", &CALL, PAIR),
];

fn all_report(alloc: Global, cases: &[(&str, &[u32], &str)]) -> Result<bool, Fail> {
    for (list, code, report) in cases.iter() {
        let order = order_of(alloc, "analyse f --track ", list)?;
        if !gets(
            alloc,
            order.as_str(),
            file_of_words(alloc, code)?,
            0,
            report.as_bytes(),
        )? {
            return Ok(false);
        }
    }
    Ok(true)
}

#[test]
fn reports_of_code_with_calls(rt: HostRuntime) -> Result<(), Fail> {
    assert!(rt; all_report(rt.alloc(), &REPORTS)?);
    Ok(())
}

// Branches that each go on at the next word and the one behind it, and two ends: a head for each point.
fn branches(alloc: Global, count: usize) -> Result<Vec<u8>, AllocError> {
    let mut words = vec![in alloc; 0x00050463; count]?;
    words.extend_from_slice(&[EBREAK, EBREAK])?;
    file_of_words(alloc, &words)
}

#[test]
fn heads_at_the_limit(rt: HostRuntime) -> Result<(), Fail> {
    let alloc = rt.alloc();
    let (status, _) = answer_to(alloc, "cert f --track a0", branches(alloc, 4093)?, 4096)?;
    assert_eq!(rt; status, 0);
    let many = branches(alloc, 4094)?;
    assert!(rt;
        gets(
            alloc,
            "analyse f --track a0",
            many,
            1,
            b"refused TooManyHeads 4096\n"
        )?
    );
    Ok(())
}
