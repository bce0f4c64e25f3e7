//! Small files with their points or their refusals.

use elf_image::read_image;
use elf_write::{file_of_code, file_of_words, push_number};
use flow_points::{Flow, FlowRefusal, Point, Points, recover};
use rv_decode::Instr;
use std::alloc::{AllocError, Global};

const NOP: u32 = 0x00050513; // addi a0,a0,0

const EBREAK: u32 = 0x00100073;

const RETURN: u32 = 0x00008067;

/// The points of a file, or why there are none: Memory where it has no image.
fn points_in(alloc: Global, file: &[u8]) -> Result<Points, FlowRefusal> {
    match read_image(alloc, file) {
        Ok(image) => recover(alloc, &image),
        Err(_) => Err(FlowRefusal::Memory),
    }
}

/// The same of a small file with these code words.
pub(crate) fn points_of(alloc: Global, words: &[u32]) -> Result<Points, FlowRefusal> {
    match file_of_words(alloc, words) {
        Ok(file) => points_in(alloc, &file),
        Err(_) => Err(FlowRefusal::Memory),
    }
}

/// A small file whose code may be compressed and has these halves.
fn file_of_halves(alloc: Global, halves: &[u16]) -> Result<Vec<u8>, AllocError> {
    let mut code = Vec::new(alloc);
    for half in halves {
        push_number(&mut code, 2, u64::from(*half))?;
    }
    file_of_code(alloc, 1, &code)
}

/// The same of this file.
fn points_of_halves(alloc: Global, halves: &[u16]) -> Result<Points, FlowRefusal> {
    match file_of_halves(alloc, halves) {
        Ok(file) => points_in(alloc, &file),
        Err(_) => Err(FlowRefusal::Memory),
    }
}

/// Whether these are the points, in order, and each is found.
fn are_points(points: &Points, expected: &[(u64, u64)]) -> bool {
    let mut i = 0;
    for (proc_entry, address) in expected {
        if i >= points.count() {
            return false;
        }
        let point = Point {
            proc_entry: *proc_entry,
            address: *address,
        };
        if points.point(i) != point || points.find(*proc_entry, *address) != Some(i) {
            return false;
        }
        i += 1;
    }
    points.count() == i && points.find(0x10078, 0x10090) == None
}

/// Files, with the procedure and the address of each point.
const FILES: [(&[u32], &[(u64, u64)]); 3] = [
    (&PAIR, &PAIR_POINTS),
    (&SHARED_TAIL, &SHARED_TAIL_POINTS),
    (&[0x0000006f], &[(0x10078, 0x10078)]), // jal zero,0
];

// auipc ra,0x0; jalr ra,12(ra); ebreak; jalr zero,0(ra)
const PAIR: [u32; 4] = [0x00000097, 0x00c080e7, EBREAK, RETURN];

const PAIR_POINTS: [(u64, u64); 4] = [
    (0x10078, 0x10078),
    (0x10078, 0x1007c),
    (0x10078, 0x10080),
    (0x10084, 0x10084),
];

// jal ra,12; jal ra,12; ebreak; jal zero,8; jal zero,4; jalr zero,0(ra): two procedures share a tail
const SHARED_TAIL: [u32; 6] = [
    0x00c000ef, 0x00c000ef, EBREAK, 0x0080006f, 0x0040006f, RETURN,
];

const SHARED_TAIL_POINTS: [(u64, u64); 7] = [
    (0x10078, 0x10078),
    (0x10078, 0x1007c),
    (0x10078, 0x10080),
    (0x10084, 0x10084),
    (0x10084, 0x1008c),
    (0x10088, 0x10088),
    (0x10088, 0x1008c),
];

fn has_points(alloc: Global, words: &[u32], expected: &[(u64, u64)]) -> bool {
    match points_of(alloc, words) {
        Ok(points) => are_points(&points, expected),
        Err(_) => false,
    }
}

fn all_have_their_points(alloc: Global) -> bool {
    for (words, expected) in FILES.iter() {
        if !has_points(alloc, words, expected) {
            return false;
        }
    }
    true
}

#[test]
fn points_ascend(rt: HostRuntime) {
    assert!(rt; all_have_their_points(rt.alloc()));
}

const PAIR_FLOWS: [Flow; 4] = [
    Flow::Next(0x1007c),
    Flow::Call {
        target: 0x10084,
        next: 0x10080,
    },
    Flow::Halt,
    Flow::Return,
];

/// Whether these are the flows of the points, in order.
fn are_flows(points: &Points, flows: &[Flow]) -> bool {
    let mut i = 0;
    for flow in flows {
        if i >= points.count() || points.flow(i) != *flow {
            return false;
        }
        i += 1;
    }
    points.count() == i
}

/// Whether these are the points of the pair, by what else is told of them.
fn is_pair(points: &Points) -> bool {
    points.count() == 4
        && points.word(1) == 0x00c080e7
        && points.length(1) == 4
        && points.instr(2) == Instr::Ebreak
        && points.code(3).word == RETURN
        && points.procedures() == [0x10078, 0x10084].as_slice()
        && points.entry() == 0x10078
}

fn has_pair(alloc: Global) -> bool {
    match points_of(alloc, &PAIR) {
        Ok(points) => are_flows(&points, &PAIR_FLOWS) && is_pair(&points),
        Err(_) => false,
    }
}

#[test]
fn code_of_points(rt: HostRuntime) {
    assert!(rt; has_pair(rt.alloc()));
}

/// Files, with why each is refused and the text of that.
const REFUSED: [(&[u32], FlowRefusal, &str); 8] = [
    // jal ra,12; jalr zero,0(t0); ebreak; jalr zero,0(t1)
    (
        &[0x00c000ef, 0x00028067, EBREAK, 0x00030067],
        FlowRefusal::IndirectJump(0x1007c, 5),
        "IndirectJump t0 at 0x1007c",
    ),
    // beq a0,zero,8 before a pair
    (
        &[0x00050463, 0x00000097, 0x00c080e7, EBREAK, RETURN],
        FlowRefusal::IntoPair(0x10080),
        "IntoPair at 0x10080",
    ),
    // jal t0,8
    (
        &[0x008002ef],
        FlowRefusal::OddLink(0x10078, 5),
        "OddLink t0 at 0x10078",
    ),
    // jal zero,2
    (
        &[0x0020006f],
        FlowRefusal::MisalignedTarget(0x10078, 0x1007a),
        "MisalignedTarget 0x1007a at 0x10078",
    ),
    (
        &[0],
        FlowRefusal::NoInstruction(0x10078, 0),
        "NoInstruction 00000000 at 0x10078",
    ),
    // auipc ra,0x0; jal zero,4; jalr zero,12(ra): an AUIPC that doesn't stand before the JALR
    (
        &[0x00000097, 0x0040006f, 0x00c08067],
        FlowRefusal::IndirectJump(0x10080, 1),
        "IndirectJump ra at 0x10080",
    ),
    // jalr zero,0(zero)
    (
        &[0x00000067],
        FlowRefusal::IndirectJump(0x10078, 0),
        "IndirectJump zero at 0x10078",
    ),
    (
        &[NOP],
        FlowRefusal::OutsideCode(0x1007c),
        "OutsideCode at 0x1007c",
    ),
];

fn is_refused(points: Result<Points, FlowRefusal>, refusal: FlowRefusal) -> bool {
    match points {
        Ok(_) => false,
        Err(found) => found == refusal,
    }
}

fn has_text(alloc: Global, refusal: FlowRefusal, text: &str) -> bool {
    match format!(in alloc; "{refusal}") {
        Ok(line) => line.as_str() == text,
        Err(_) => false,
    }
}

fn all_are_refused(alloc: Global) -> bool {
    for (words, refusal, text) in REFUSED.iter() {
        if !is_refused(points_of(alloc, words), *refusal) || !has_text(alloc, *refusal, text) {
            return false;
        }
    }
    true
}

#[test]
fn refusals(rt: HostRuntime) {
    assert!(rt; all_are_refused(rt.alloc()));
}

/// The points of so many words that go on to the next, and one more.
fn points_of_straight(alloc: Global, n: usize, last: u32) -> Result<Points, FlowRefusal> {
    match straight(alloc, n, last) {
        Ok(words) => points_of(alloc, &words),
        Err(_) => Err(FlowRefusal::Memory),
    }
}

fn straight(alloc: Global, n: usize, last: u32) -> Result<Vec<u32>, AllocError> {
    let mut words = vec![in alloc; NOP; n]?;
    words.push(last)?;
    Ok(words)
}

fn count_of(points: Result<Points, FlowRefusal>) -> u32 {
    match points {
        Ok(points) => points.count(),
        Err(_) => 0,
    }
}

#[test]
fn most_points(rt: HostRuntime) {
    let alloc = rt.alloc();
    assert!(rt; count_of(points_of_straight(alloc, 16383, EBREAK)) == 16384);
    let outside = points_of_straight(alloc, 4094, NOP);
    assert!(rt; is_refused(outside, FlowRefusal::OutsideCode(0x14074)));
    let many = points_of_straight(alloc, 16384, EBREAK);
    assert!(rt; is_refused(many, FlowRefusal::TooManyPoints(16384)));
}

/// Files whose code may be compressed, with the procedure, the address and the length of each point.
const COMPRESSED: [(&[u16], &[(u64, u64, u8)]); 3] = [
    // c.li a0,5; c.ebreak
    (
        &[0x4515, 0x9002],
        &[(0x10078, 0x10078, 2), (0x10078, 0x1007a, 2)],
    ),
    // jal zero,6; c.ebreak; c.ebreak: the target is no multiple of 4
    (
        &[0x006f, 0x0060, 0x9002, 0x9002],
        &[(0x10078, 0x10078, 4), (0x10078, 0x1007e, 2)],
    ),
    // auipc ra,0x0; jalr ra,10(ra); c.ebreak; c.jr ra
    (
        &[0x0097, 0x0000, 0x80e7, 0x00a0, 0x9002, 0x8082],
        &[
            (0x10078, 0x10078, 4),
            (0x10078, 0x1007c, 4),
            (0x10078, 0x10080, 2),
            (0x10082, 0x10082, 2),
        ],
    ),
];

/// Whether these are the points with their lengths, in order.
fn are_points_with_lengths(points: &Points, expected: &[(u64, u64, u8)]) -> bool {
    let mut i = 0;
    for (proc_entry, address, length) in expected {
        if i >= points.count() {
            return false;
        }
        let point = Point {
            proc_entry: *proc_entry,
            address: *address,
        };
        if points.point(i) != point || points.length(i) != *length {
            return false;
        }
        i += 1;
    }
    points.count() == i
}

fn has_points_with_lengths(alloc: Global, halves: &[u16], expected: &[(u64, u64, u8)]) -> bool {
    match points_of_halves(alloc, halves) {
        Ok(points) => are_points_with_lengths(&points, expected),
        Err(_) => false,
    }
}

fn all_compressed_have_their_points(alloc: Global) -> bool {
    for (halves, expected) in COMPRESSED.iter() {
        if !has_points_with_lengths(alloc, halves, expected) {
            return false;
        }
    }
    true
}

#[test]
fn compressed_points(rt: HostRuntime) {
    assert!(rt; all_compressed_have_their_points(rt.alloc()));
}

const COMPRESSED_REFUSED: [(&[u16], FlowRefusal); 5] = [
    (&[0], FlowRefusal::NoInstruction(0x10078, 0)),
    // c.jr gp
    (&[0x8182], FlowRefusal::IndirectJump(0x10078, 3)),
    // addi a0,a4,9; c.nop; c.jalr ra; c.ebreak: the bytes at 0x1007a look like auipc ra,0x10
    (
        &[0x0513, 0x0097, 0x0001, 0x9082, 0x9002],
        FlowRefusal::IntoPair(0x1007e),
    ),
    // c.nop
    (&[0x0001], FlowRefusal::OutsideCode(0x1007a)),
    // c.nop, and half of an addi
    (&[0x0001, 0x0513], FlowRefusal::OutsideCode(0x1007a)),
];

fn all_compressed_are_refused(alloc: Global) -> bool {
    for (halves, refusal) in COMPRESSED_REFUSED.iter() {
        if !is_refused(points_of_halves(alloc, halves), *refusal) {
            return false;
        }
    }
    true
}

#[test]
fn compressed_refusals(rt: HostRuntime) {
    assert!(rt; all_compressed_are_refused(rt.alloc()));
}
