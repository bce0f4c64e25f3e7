//! What instructions give to tracked names, track lists, and a program, by hand.

ghost use Rattle.frame_offsets.specs.Frames.{AreOffsetsOf};

use crate::images::{push_section, push_symbol};
use affine_lift::{TrackRefusal, lift, read_tracked};
use affine_prog::{Assign, Edge, Kind, Proc, Program};
use elf_image::{Image, read_image};
use elf_write::{
    FileHeader, SegmentHeader, file_of_words, push_file_header, push_program_header, push_words,
};
use flow_points::{Points, recover};
use frame_offsets::{Offsets, offsets};
use report_text::{Name, Tracked};
use std::alloc::{AllocError, Global};
use word_rows::Row;

const EBREAK: u32 = 0x00100073;

/// The image of a small file with this code.
fn image_of(alloc: Global, words: &[u32]) -> Option<Image> {
    match file_of_words(alloc, words) {
        Ok(file) => image_in(alloc, &file),
        Err(_) => None,
    }
}

fn image_in(alloc: Global, file: &[u8]) -> Option<Image> {
    match read_image(alloc, file) {
        Ok(image) => Some(image),
        Err(_) => None,
    }
}

fn points_in(alloc: Global, image: &Image) -> Option<Points> {
    match recover(alloc, image) {
        Ok(points) => Some(points),
        Err(_) => None,
    }
}

/// The program of a small file with this code, for a track list.
fn program_of(alloc: Global, words: &[u32], list: &str) -> Option<Program> {
    match image_of(alloc, words) {
        Some(image) => program_in(alloc, &image, list),
        None => None,
    }
}

fn program_in(alloc: Global, image: &Image, list: &str) -> Option<Program> {
    match points_in(alloc, image) {
        Some(points) => program_at(alloc, image, &points, list),
        None => None,
    }
}

fn program_at(alloc: Global, image: &Image, points: &Points, list: &str) -> Option<Program> {
    match read_tracked(alloc, list, image, points) {
        Ok(tracked) => program_for(alloc, points, &tracked),
        Err(_) => None,
    }
}

fn program_for(alloc: Global, points: &Points, tracked: &Tracked) -> Option<Program> {
    match offsets(alloc, points) {
        Ok(offsets) => lifted(alloc, points, &offsets, tracked),
        Err(_) => None,
    }
}

fn lifted(alloc: Global, points: &Points, offsets: &Offsets, tracked: &Tracked) -> Option<Program>
    requires { AreOffsetsOf points.now offsets.now }
{
    match lift(alloc, points, offsets, tracked) {
        Ok(program) => Some(program),
        Err(_) => None,
    }
}

/// The assignments of an edge, before it calls, if it does.
fn assigns_of(kind: &Kind) -> &[Assign] {
    match kind {
        Kind::Do(assigns) => assigns.as_slice(),
        Kind::Call { before, .. } => before.as_slice(),
    }
}

/// Whether a word gives these assignments to a0, a1, the slots at -8 and -16, and ra, behind `addi sp,sp,-16`.
fn gives(alloc: Global, word: u32, assigns: &[Assign]) -> bool {
    let code = [0xff010113, word, EBREAK, EBREAK];
    match program_of(alloc, &code, "a0,a1,0x10078:-8,0x10078:-16,ra") {
        Some(program) => is_second(program.edges.as_slice(), assigns),
        None => false,
    }
}

/// Whether the second edge has these assignments.
fn is_second(edges: &[Edge], assigns: &[Assign]) -> bool {
    edges.len() > 1 && assigns_of(&edges[1].kind) == assigns
}

/// These factors of a0, a1 and the slots at -8 and -16, and a constant.
fn row(factors: [u64; 4], constant: u64) -> Row<17> {
    let [a0, a1, upper, lower] = factors;
    Row::zero()
        .with(0, a0)
        .with(1, a1)
        .with(2, upper)
        .with(3, lower)
        .with(16, constant)
}

const MINUS_1: u64 = u64::MAX;

/// Words that set the name at a position to a sum: its factors and its constant.
const SUMS: [(u32, u8, [u64; 4], u64); 26] = [
    (0x00558513, 0, [0, 1, 0, 0], 5), // addi a0,a1,5
    (0xfff58513, 0, [0, 1, 0, 0], MINUS_1), // addi a0,a1,-1
    (0x00700513, 0, [0; 4], 7), // addi a0,zero,7
    (0x00a58533, 0, [1, 1, 0, 0], 0), // add a0,a1,a0
    (0x00b00533, 0, [0, 1, 0, 0], 0), // add a0,zero,a1
    (0x00b58533, 0, [0, 2, 0, 0], 0), // add a0,a1,a1
    (0x40a58533, 0, [MINUS_1, 1, 0, 0], 0), // sub a0,a1,a0
    (0x40528533, 0, [0; 4], 0), // sub a0,t0,t0
    (0x80000537, 0, [0; 4], 0xffffffff80000000), // lui a0,0x80000
    (0x00001517, 0, [0; 4], 0x1107c), // auipc a0,0x1
    (0x00359513, 0, [0, 8, 0, 0], 0), // slli a0,a1,3
    (0x00059513, 0, [0, 1, 0, 0], 0), // slli a0,a1,0
    (0x03f59513, 0, [0, 0x8000000000000000, 0, 0], 0), // slli a0,a1,63
    (0xfff5c513, 0, [0, MINUS_1, 0, 0], MINUS_1), // xori a0,a1,-1
    (0x0005e533, 0, [0, 1, 0, 0], 0), // or a0,a1,zero
    (0x00b06533, 0, [0, 1, 0, 0], 0), // or a0,zero,a1
    (0x0005c533, 0, [0, 1, 0, 0], 0), // xor a0,a1,zero
    (0x00004533, 0, [0; 4], 0), // xor a0,zero,zero
    (0x0002f533, 0, [0; 4], 0), // and a0,t0,zero
    (0x02500533, 0, [0; 4], 0), // mul a0,zero,t0
    (0x008000ef, 4, [0; 4], 0x10080), // jal ra,8
    (0x00813503, 0, [0, 0, 1, 0], 0), // ld a0,8(sp)
    (0x00013503, 0, [0, 0, 0, 1], 0), // ld a0,0(sp)
    (0x00a13423, 2, [1, 0, 0, 0], 0), // sd a0,8(sp)
    (0x00b13023, 3, [0, 1, 0, 0], 0), // sd a1,0(sp)
    (0x00013023, 3, [0; 4], 0), // sd zero,0(sp)
];

fn all_give_sums(alloc: Global) -> bool {
    for (word, place, factors, constant) in SUMS.iter() {
        let sum = Assign::Affine(*place, row(*factors, *constant));
        if !gives(alloc, *word, &[sum]) {
            return false;
        }
    }
    true
}

#[test]
fn sums_of_registers_and_slots(rt: HostRuntime) {
    assert!(rt; all_give_sums(rt.alloc()));
}

/// Words that set the name at a position to any word.
const UNKNOWNS: [(u32, u8); 26] = [
    (0x00028513, 0), // addi a0,t0,0
    (0x00528533, 0), // add a0,t0,t0
    (0x40558533, 0), // sub a0,a1,t0
    (0x03f29513, 0), // slli a0,t0,63
    (0x00b5e533, 0), // or a0,a1,a1
    (0x00b5c533, 0), // xor a0,a1,a1
    (0x00b5f533, 0), // and a0,a1,a1
    (0x0055f533, 0), // and a0,a1,t0
    (0x0005e513, 0), // ori a0,a1,0
    (0x0005f513, 0), // andi a0,a1,0
    (0x0005c513, 0), // xori a0,a1,0
    (0x0005851b, 0), // addiw a0,a1,0
    (0x0005853b, 0), // addw a0,a1,zero
    (0x02b03533, 0), // mulhu a0,zero,a1
    (0x0005d513, 0), // srli a0,a1,0
    (0x00812503, 0), // lw a0,8(sp)
    (0x00413503, 0), // ld a0,4(sp)
    (0x01013503, 0), // ld a0,16(sp)
    (0x0005b503, 0), // ld a0,0(a1)
    (0x00000073, 0), // ecall
    (0x00513423, 2), // sd t0,8(sp)
    (0x00a13623, 2), // sd a0,12(sp), the bytes from -4 to 3, across 2^64
    (0x00a12423, 2), // sw a0,8(sp)
    (0x00a107a3, 2), // sb a0,15(sp)
    (0xfea13e23, 3), // sd a0,-4(sp)
    (0x00011323, 3), // sh zero,6(sp)
];

/// Words that set both slots to any word, the slot at -8 first: sd a0,4(sp); sh a0,7(sp).
const BOTH_SLOTS: [u32; 2] = [0x00a13223, 0x00a113a3];

/// Words that set none of the names: sd a0,16(sp); sd a0,-8(sp); sb a0,-1(sp); sd a0,0(a1); addi t0,a0,1;
/// addi zero,a0,1; beq a0,a1,8; fence; jal zero,8.
const NOTHING: [u32; 9] = [
    0x00a13823, 0xfea13c23, 0xfea10fa3, 0x00a5b023, 0x00150293, 0x00150013, 0x00b50463, 0x0ff0000f,
    0x0080006f,
];

fn all_give_any(alloc: Global) -> bool {
    for (word, place) in UNKNOWNS.iter() {
        if !gives(alloc, *word, &[Assign::Any(*place)]) {
            return false;
        }
    }
    true
}

fn all_give(alloc: Global, words: &[u32], assigns: &[Assign]) -> bool {
    for word in words {
        if !gives(alloc, *word, assigns) {
            return false;
        }
    }
    true
}

#[test]
fn unknown_words(rt: HostRuntime) {
    let alloc = rt.alloc();
    assert!(rt; all_give_any(alloc));
    assert!(rt; all_give(alloc, &BOTH_SLOTS, &[Assign::Any(2), Assign::Any(3)]));
    assert!(rt; all_give(alloc, &NOTHING, &[]));
}

/// Lists on a file whose one procedure is 0x10078, with why each is refused.
const REFUSED: [(&str, TrackRefusal); 21] = [
    ("", TrackRefusal::Empty),
    (",,,,,,,,,,,,,,,,", TrackRefusal::TooMany(16)),
    (",", TrackRefusal::UnknownName(1)),
    ("zero", TrackRefusal::UnknownName(1)),
    ("a0,,a1", TrackRefusal::UnknownName(2)),
    ("main:-8", TrackRefusal::UnknownName(1)),
    ("0x:-8", TrackRefusal::UnknownName(1)),
    ("0X10078:-8", TrackRefusal::UnknownName(1)),
    ("0x00000000000010078:-8", TrackRefusal::UnknownName(1)),
    ("a0:0x10078:-8", TrackRefusal::UnknownName(1)),
    ("main:-12,main", TrackRefusal::UnknownName(1)),
    ("0x10078:-12", TrackRefusal::BadSlot(1)),
    ("0x10078:-2056", TrackRefusal::BadSlot(1)),
    ("0x10078:-08", TrackRefusal::BadSlot(1)),
    ("0x10078:8", TrackRefusal::BadSlot(1)),
    ("a0,0x9999:-4", TrackRefusal::BadSlot(2)),
    ("0x9999:-8", TrackRefusal::NoSuchProcedure(1)),
    ("a0,0x9999:-8,a0", TrackRefusal::NoSuchProcedure(2)),
    ("s0,fp", TrackRefusal::Repeated(2)),
    ("a0,a0,zero", TrackRefusal::Repeated(2)),
    ("0x10078:-8,a0,0x010078:-8", TrackRefusal::Repeated(3)),
];

/// Whether a list is refused so.
fn is_refused(
    alloc: Global,
    list: &str,
    image: &Image,
    points: &Points,
    refusal: TrackRefusal,
) -> bool {
    match read_tracked(alloc, list, image, points) {
        Ok(_) => false,
        Err(found) => found == refusal,
    }
}

fn are_refused(
    alloc: Global,
    image: &Image,
    points: &Points,
    lists: &[(&str, TrackRefusal)],
) -> bool {
    for (list, refusal) in lists {
        if !is_refused(alloc, list, image, points, *refusal) {
            return false;
        }
    }
    true
}

fn refuses(alloc: Global, image: &Image, lists: &[(&str, TrackRefusal)]) -> bool {
    match points_in(alloc, image) {
        Some(points) => are_refused(alloc, image, &points, lists),
        None => false,
    }
}

fn refuses_lists(alloc: Global) -> bool {
    match image_of(alloc, &[0x00500513, EBREAK]) {
        Some(image) => refuses(alloc, &image, &REFUSED),
        None => false,
    }
}

#[test]
fn refused_lists(rt: HostRuntime) {
    assert!(rt; refuses_lists(rt.alloc()));
}

/// Symbols, by their place among the texts `main`, `a0` and `end`, and their values.
const SYMBOLS: [(u32, u64); 4] = [(1, 0x10078), (1, 0x1007c), (6, 0x10078), (9, 0x1007c)];

/// A file whose one procedure is 0x10078, with these symbols: texts at 128, symbols at 144, sections at 240.
fn file_with_symbols(alloc: Global) -> Result<Vec<u8>, AllocError> {
    let header = FileHeader {
        entry: 0x10078,
        flags: 0,
        segments: 1,
        sections_at: 240,
        sections: 2,
        names_section: 0,
    };
    let segment = SegmentHeader {
        offset: 0,
        address: 0x10000,
        stored: 128,
        size: 128,
        flags: 5,
    };
    let mut file = Vec::new(alloc);
    push_file_header(&mut file, &header)?;
    push_program_header(&mut file, &segment)?;
    push_words(&mut file, &[0x00500513, EBREAK])?;
    push_symbols(&mut file)?;
    Ok(file)
}

fn push_symbols(file: &mut Vec<u8>) -> Result<(), AllocError> {
    file.extend_from_slice(b"\0main\0a0\0end\0\0\0\0")?;
    for (name, value) in SYMBOLS.iter() {
        push_symbol(file, (*name, 0x12, 1, *value))?;
    }
    push_section(file, [2, 144, 96, 1, 24])?;
    push_section(file, [3, 128, 16, 0, 0])
}

/// What a list of registers and slots of the procedure names.
const NAMES: [Name; 5] = [
    Name::Register(10),
    Name::Register(11),
    Name::Slot {
        proc_entry: 0x10078,
        below: 2048,
    },
    Name::Slot {
        proc_entry: 0x10078,
        below: 8,
    },
    Name::Slot {
        proc_entry: 0x10078,
        below: 16,
    },
];

fn are_named(alloc: Global, image: &Image, points: &Points) -> bool {
    let list = "a0,x11,0x10078:-2048,main:-8,a0:-16";
    match read_tracked(alloc, list, image, points) {
        Ok(tracked) => tracked.names.as_slice() == NAMES.as_slice(),
        Err(_) => false,
    }
}

fn has_names(alloc: Global, image: &Image) -> bool {
    match points_in(alloc, image) {
        Some(points) => are_named(alloc, image, &points),
        None => false,
    }
}

/// Lists on that file, with why each is refused.
const REFUSED_NAMES: [(&str, TrackRefusal); 5] = [
    ("main", TrackRefusal::UnknownName(1)),
    ("a0,mai:-8", TrackRefusal::UnknownName(2)),
    ("main:-12", TrackRefusal::BadSlot(1)),
    ("end:-8", TrackRefusal::NoSuchProcedure(1)),
    ("0x10078:-8,main:-8", TrackRefusal::Repeated(2)),
];

fn image_with_symbols(alloc: Global) -> Option<Image> {
    match file_with_symbols(alloc) {
        Ok(file) => image_in(alloc, &file),
        Err(_) => None,
    }
}

fn serves_names(alloc: Global) -> bool {
    match image_with_symbols(alloc) {
        Some(image) => has_names(alloc, &image) && refuses(alloc, &image, &REFUSED_NAMES),
        None => false,
    }
}

#[test]
fn names_of_lists(rt: HostRuntime) {
    assert!(rt; serves_names(rt.alloc()));
}

/// jal ra,8; ebreak; addi sp,sp,-16; sd ra,8(sp); beq a0,zero,8; jal ra,-12; ld ra,8(sp); addi sp,sp,16; ret
const RECURSION: [u32; 9] = [
    0x008000ef, EBREAK, 0xff010113, 0x00113423, 0x00050463, 0xff5ff0ef, 0x00813083, 0x01010113,
    0x00008067,
];

/// Its edges for sp, ra and the slot at -8: from where to where, which procedure is called, and the position
/// that is set, with its factors and its constant.
const EDGES: [(u32, u32, Option<u32>, Option<u8>, [u64; 4], u64); 9] = [
    (0, 1, Some(1), Some(1), [0; 4], 0x1007c),
    (2, 3, None, Some(0), [1, 0, 0, 0], MINUS_1 - 15),
    (3, 4, None, Some(2), [0, 1, 0, 0], 0),
    (4, 5, None, None, [0; 4], 0),
    (4, 6, None, None, [0; 4], 0),
    (5, 6, Some(1), Some(1), [0; 4], 0x10090),
    (6, 7, None, Some(1), [0, 0, 1, 0], 0),
    (7, 8, None, Some(0), [1, 0, 0, 0], 16),
    (8, 10, None, None, [0; 4], 0),
];

/// The procedure that an edge calls.
fn callee_of(kind: &Kind) -> Option<u32> {
    match kind {
        Kind::Do(_) => None,
        Kind::Call { callee, .. } => Some(*callee),
    }
}

/// Whether an edge is this one of the table.
fn is_edge(edge: &Edge, case: &(u32, u32, Option<u32>, Option<u8>, [u64; 4], u64)) -> bool {
    let (from, to, callee, place, factors, constant) = *case;
    let assigns = assigns_of(&edge.kind);
    let same = match place {
        Some(place) => assigns == [Assign::Affine(place, row(factors, constant))].as_slice(),
        None => assigns.is_empty(),
    };
    same && edge.from == from && edge.to == to && callee_of(&edge.kind) == callee
}

fn are_edges(edges: &[Edge], cases: &[(u32, u32, Option<u32>, Option<u8>, [u64; 4], u64)]) -> bool {
    for (edge, case) in edges.iter().zip(cases) {
        if !is_edge(edge, case) {
            return false;
        }
    }
    edges.len() == cases.len()
}

const PROCS: [Proc; 2] = [
    Proc {
        entry: 0,
        exit: 9,
        slots: 0,
    },
    Proc {
        entry: 2,
        exit: 10,
        slots: 0b100,
    },
];

const OWNERS: [u32; 11] = [0, 0, 1, 1, 1, 1, 1, 1, 1, 0, 1];

fn has_nodes(program: &Program) -> bool {
    program.width == 3
        && program.registers == 0b011
        && program.nodes == 11
        && program.start == 0
        && program.procs.as_slice() == PROCS.as_slice()
        && program.owners.as_slice() == OWNERS.as_slice()
}

fn is_recursion(alloc: Global) -> bool {
    match program_of(alloc, &RECURSION, "sp,ra,0x10080:-8") {
        Some(program) => has_nodes(&program) && are_edges(program.edges.as_slice(), &EDGES),
        None => false,
    }
}

#[test]
fn a_recursion(rt: HostRuntime) {
    assert!(rt; is_recursion(rt.alloc()));
}
