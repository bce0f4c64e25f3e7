//! Single steps: each instruction on a plain case, and the borders of divisions, shifts and signs.

use elf_image::read_image;
use elf_write::{
    FileHeader, SegmentHeader, file_of_code, file_of_words, push_file_header, push_program_header,
    push_words,
};
use rv_step::{Machine, StepRec, Stop, StoreRec};
use std::alloc::{AllocError, Global};

const EBREAK: u32 = 0x00100073;

const LEAST: u64 = 0xffff_ffff_8000_0000; // the least number of 32 bits

// An instruction word, a1, a2, and a0 after the step. a0 is 0 before it.
const RESULTS: [(u32, u64, u64, u64); 69] = [
    (0x00c58533, u64::MAX, 2, 1), // add a0,a1,a2
    (0x40c58533, 1, 2, u64::MAX), // sub a0,a1,a2
    (0x00c59533, 1, 65, 2), // sll a0,a1,a2
    (0x00c5a533, u64::MAX, 0, 1), // slt a0,a1,a2
    (0x00c5b533, u64::MAX, 0, 0), // sltu a0,a1,a2
    (0x00c5c533, 0xc, 0xa, 0x6), // xor a0,a1,a2
    (0x00c5d533, 1 << 63, 63, 1), // srl a0,a1,a2
    (0x40c5d533, 1 << 63, 63, u64::MAX), // sra a0,a1,a2
    (0x00c5e533, 0xc, 0xa, 0xe), // or a0,a1,a2
    (0x00c5f533, 0xc, 0xa, 0x8), // and a0,a1,a2
    (0x02c58533, (1 << 63) + 3, 6, 18), // mul a0,a1,a2
    (0x02c59533, u64::MAX, u64::MAX, 0), // mulh a0,a1,a2
    (0x02c59533, 1 << 63, 1 << 63, 1 << 62), // mulh a0,a1,a2
    (0x02c5a533, u64::MAX, u64::MAX, u64::MAX), // mulhsu a0,a1,a2
    (0x02c5b533, u64::MAX, u64::MAX, u64::MAX - 1), // mulhu a0,a1,a2
    (0x02c5c533, u64::MAX - 6, 2, u64::MAX - 2), // div a0,a1,a2
    (0x02c5c533, 7, 0, u64::MAX), // div a0,a1,a2
    (0x02c5c533, 1 << 63, u64::MAX, 1 << 63), // div a0,a1,a2
    (0x02c5d533, u64::MAX, 2, (1 << 63) - 1), // divu a0,a1,a2
    (0x02c5d533, 7, 0, u64::MAX), // divu a0,a1,a2
    (0x02c5e533, u64::MAX - 6, 2, u64::MAX), // rem a0,a1,a2
    (0x02c5e533, 7, u64::MAX - 1, 1), // rem a0,a1,a2
    (0x02c5e533, 7, 0, 7), // rem a0,a1,a2
    (0x02c5e533, 1 << 63, u64::MAX, 0), // rem a0,a1,a2
    (0x02c5f533, u64::MAX, 2, 1), // remu a0,a1,a2
    (0x02c5f533, 7, 0, 7), // remu a0,a1,a2
    (0x00c5853b, (1 << 31) - 1, 1, LEAST), // addw a0,a1,a2
    (0x40c5853b, 0, 1, u64::MAX), // subw a0,a1,a2
    (0x00c5953b, 1, 31, LEAST), // sllw a0,a1,a2
    (0x00c5953b, 1, 32, 1), // sllw a0,a1,a2
    (0x00c5d53b, LEAST, 31, 1), // srlw a0,a1,a2
    (0x00c5d53b, 1 << 31, 0, LEAST), // srlw a0,a1,a2
    (0x40c5d53b, 1 << 31, 31, u64::MAX), // sraw a0,a1,a2
    (0x02c5853b, 1 << 16, 1 << 15, LEAST), // mulw a0,a1,a2
    (0x02c5c53b, u64::MAX - 6, 2, u64::MAX - 2), // divw a0,a1,a2
    (0x02c5c53b, 7, 1 << 32, u64::MAX), // divw a0,a1,a2
    (0x02c5c53b, 1 << 31, u64::MAX, LEAST), // divw a0,a1,a2
    (0x02c5d53b, 0xffff_ffff, 1, u64::MAX), // divuw a0,a1,a2
    (0x02c5d53b, 7, 0, u64::MAX), // divuw a0,a1,a2
    (0x02c5e53b, u64::MAX - 6, 2, u64::MAX), // remw a0,a1,a2
    (0x02c5e53b, 1 << 31, 0, LEAST), // remw a0,a1,a2
    (0x02c5e53b, 1 << 31, u64::MAX, 0), // remw a0,a1,a2
    (0x02c5f53b, 7, 4, 3), // remuw a0,a1,a2
    (0x02c5f53b, 1 << 31, 0, LEAST), // remuw a0,a1,a2
    (0xfff58513, 0, 0, u64::MAX), // addi a0,a1,-1
    (0xfff5a513, u64::MAX - 1, 0, 1), // slti a0,a1,-1
    (0xfff5b513, 5, 0, 1), // sltiu a0,a1,-1
    (0xfff5c513, 5, 0, u64::MAX - 5), // xori a0,a1,-1
    (0x0105e513, 5, 0, 21), // ori a0,a1,16
    (0xff05f513, 0x37, 0, 0x30), // andi a0,a1,-16
    (0x0005851b, 1 << 31, 0, LEAST), // addiw a0,a1,0
    (0x03f59513, 3, 0, 1 << 63), // slli a0,a1,63
    (0x03f5d513, 1 << 63, 0, 1), // srli a0,a1,63
    (0x43f5d513, 1 << 63, 0, u64::MAX), // srai a0,a1,63
    (0x01f5951b, 3, 0, LEAST), // slliw a0,a1,31
    (0x01f5d51b, LEAST, 0, 1), // srliw a0,a1,31
    (0x41f5d51b, 1 << 31, 0, u64::MAX), // sraiw a0,a1,31
    (0x80000537, 0, 0, LEAST), // lui a0,0x80000
    (0x00001517, 0, 0, 0x1_1078), // auipc a0,1
    (0x0080056f, 0, 0, 0x1_007c), // jal a0,8
    (0x00258503, 0x1_0010, 0, u64::MAX - 0xc), // lb a0,2(a1)
    (0x0025c503, 0x1_0010, 0, 0xf3), // lbu a0,2(a1)
    (0x00159503, 0x1_0010, 0, 0xffff_ffff_ffff_f300), // lh a0,1(a1)
    (0x0015d503, 0x1_0010, 0, 0xf300), // lhu a0,1(a1)
    (0xfff5a503, 0x1_0010, 0, 0xffff_ffff_f300_0200), // lw a0,-1(a1)
    (0xfff5e503, 0x1_0010, 0, 0xf300_0200), // lwu a0,-1(a1)
    (0x0005b503, 0x1_0010, 0, 0x1_00f3_0002), // ld a0,0(a1)
    (0x0045b503, u64::MAX - 0xb, 0, 0), // ld a0,4(a1)
    (0x0ff0000f, 9, 9, 0), // fence
];

// A branch, jump or fence, a1, a2, and pc after the step.
const TURNS: [(u32, u64, u64, u64); 17] = [
    (0x00c58863, 7, 7, 0x1_0088), // beq a1,a2,16
    (0x00c58863, 7, 8, 0x1_007c), // beq a1,a2,16
    (0x00c59863, 7, 8, 0x1_0088), // bne a1,a2,16
    (0x00c59863, 7, 7, 0x1_007c), // bne a1,a2,16
    (0x00c5c863, u64::MAX, 0, 0x1_0088), // blt a1,a2,16
    (0x00c5c863, 0, 0, 0x1_007c), // blt a1,a2,16
    (0x00c5d863, 0, u64::MAX, 0x1_0088), // bge a1,a2,16
    (0x00c5d863, u64::MAX, 0, 0x1_007c), // bge a1,a2,16
    (0x00c5d863, 7, 7, 0x1_0088), // bge a1,a2,16
    (0x00c5e863, 0, u64::MAX, 0x1_0088), // bltu a1,a2,16
    (0x00c5e863, u64::MAX, 0, 0x1_007c), // bltu a1,a2,16
    (0x00c5f863, u64::MAX, 0, 0x1_0088), // bgeu a1,a2,16
    (0x00c5f863, 0, u64::MAX, 0x1_007c), // bgeu a1,a2,16
    (0x003585e7, 0x2_0000, 0, 0x2_0002), // jalr a1,3(a1)
    (0xff9ff0ef, 0, 0, 0x1_0070), // jal ra,-8
    (0x0080056f, 0, 0, 0x1_0080), // jal a0,8
    (0x0ff0000f, 0, 0, 0x1_007c), // fence
];

/// A machine at the entry of a file, with these words in registers.
fn start(alloc: Global, file: &[u8], regs: [u64; 32]) -> Option<Machine> {
    match read_image(alloc, file) {
        Ok(image) => Machine::start(alloc, &image, regs).ok(),
        Err(_) => None,
    }
}

/// The registers of which some have these words, and all others 0.
fn registers_with(words: &[(usize, u64)]) -> [u64; 32] {
    let mut regs = [0; 32];
    for (place, word) in words {
        if *place < 32 {
            regs[*place] = *word;
        }
    }
    regs
}

/// A machine at an instruction word, with these words in registers, and EBREAK behind it.
fn machine_at(alloc: Global, word: u32, words: &[(usize, u64)]) -> Option<Machine> {
    match file_of_words(alloc, &[word, EBREAK]) {
        Ok(file) => start(alloc, &file, registers_with(words)),
        Err(_) => None,
    }
}

/// Whether a step sets a0 to this word.
fn sets_a0(machine: &mut Machine, a0: u64) -> bool {
    machine.step().is_ok() && machine.closing().regs[10] == a0
}

fn gives(alloc: Global, word: u32, a1: u64, a2: u64, a0: u64) -> bool {
    match machine_at(alloc, word, &[(11, a1), (12, a2)]) {
        Some(mut machine) => sets_a0(&mut machine, a0),
        None => false,
    }
}

fn all_give_their_results(alloc: Global) -> bool {
    for (word, a1, a2, a0) in RESULTS.iter() {
        if !gives(alloc, *word, *a1, *a2, *a0) {
            return false;
        }
    }
    true
}

#[test]
fn results(rt: HostRuntime) {
    assert!(rt; all_give_their_results(rt.alloc()));
}

/// Whether a step leads to this pc.
fn leads_to(machine: &mut Machine, next: u64) -> bool {
    match machine.step() {
        Ok(made) => made.next == next && machine.closing().pc == next,
        Err(_) => false,
    }
}

fn turns_to(alloc: Global, word: u32, a1: u64, a2: u64, next: u64) -> bool {
    match machine_at(alloc, word, &[(11, a1), (12, a2)]) {
        Some(mut machine) => leads_to(&mut machine, next),
        None => false,
    }
}

fn all_turn(alloc: Global) -> bool {
    for (word, a1, a2, next) in TURNS.iter() {
        if !turns_to(alloc, *word, *a1, *a2, *next) {
            return false;
        }
    }
    true
}

/// Whether jalr a1,3(a1) takes its target from a1 before it sets it, and leads outside the code.
fn links_last(alloc: Global) -> bool {
    match machine_at(alloc, 0x003585e7, &[(11, 0x2_0000)]) {
        Some(mut machine) => {
            machine.step().is_ok()
                && machine.closing().regs[11] == 0x1_007c
                && machine.step() == Err(Stop::Outside(0x2_0002))
        }
        None => false,
    }
}

#[test]
fn turns(rt: HostRuntime) {
    assert!(rt; all_turn(rt.alloc()));
    assert!(rt; links_last(rt.alloc()));
}

const VALUE: u64 = 0x8877_6655_4433_2211;

// A store, its width, and the word that it leaves.
const STORES: [(u32, u8, u64); 4] = [
    (0x00c58223, 1, 0x11), // sb a2,4(a1)
    (0x00c59223, 2, 0x2211), // sh a2,4(a1)
    (0x00c5a223, 4, 0x4433_2211), // sw a2,4(a1)
    (0x00c5b223, 8, VALUE), // sd a2,4(a1)
];

/// Whether a step stores so.
fn makes_store(machine: &mut Machine, store: StoreRec) -> bool {
    match machine.step() {
        Ok(made) => made.store == Some(store),
        Err(_) => false,
    }
}

fn stores_at(
    alloc: Global,
    words: &[(usize, u64)],
    word: u32,
    store: StoreRec,
    read: (u64, u64),
) -> bool {
    match machine_at(alloc, word, words) {
        Some(mut machine) => {
            makes_store(&mut machine, store) && machine.read_word(read.0) == read.1
        }
        None => false,
    }
}

fn all_store(alloc: Global) -> bool {
    for (word, width, after) in STORES.iter() {
        let store = StoreRec {
            address: 0x1fffd,
            width: *width,
            before: 0,
            after: *after,
        };
        let words = [(11, 0x1fff9), (12, VALUE)];
        if !stores_at(alloc, &words, *word, store, (0x1fffd, *after)) {
            return false;
        }
    }
    true
}

// The store of sd ra,8(sp) across the last address.
const AROUND: StoreRec = StoreRec {
    address: u64::MAX - 3,
    width: 8,
    before: 0,
    after: VALUE,
};

#[test]
fn stores(rt: HostRuntime) {
    let words = [(1, VALUE), (2, u64::MAX - 11)];
    assert!(rt; all_store(rt.alloc()));
    assert!(rt; stores_at(rt.alloc(), &words, 0x00113423, AROUND, (0, VALUE >> 32)));
}

// The step of addi a0,zero,5.
const FIRST: StepRec = StepRec {
    index: 0,
    made: true,
    pc: 0x1_0078,
    word: 0x00500513,
    length: 4,
    regs: [0; 32],
    next: 0x1_007c,
    store: None,
};

/// Whether a machine that stands at the EBREAK behind it says so.
fn is_at_break(machine: &Machine) -> bool {
    let closing = machine.closing();
    machine.fetched() == Some(EBREAK)
        && closing.index == 1
        && !closing.made
        && closing.pc == 0x1_007c
        && closing.next == 0x1_007c
        && closing.word == EBREAK
        && closing.regs[10] == 5
}

// A word, a7, and how it stops; a0 is 1.
const STOPS: [(u32, u64, Stop); 3] = [
    (0x00000000, 0, Stop::Illegal(0)),
    (0x00000073, 93, Stop::Exit(1)), // ecall
    (0x00000073, 64, Stop::Ecall(64)),
];

fn stops(alloc: Global, word: u32, a7: u64, stop: Stop) -> bool {
    match machine_at(alloc, word, &[(10, 1), (17, a7)]) {
        Some(mut machine) => machine.step() == Err(stop),
        None => false,
    }
}

fn all_stop(alloc: Global) -> bool {
    for (word, a7, stop) in STOPS.iter() {
        if !stops(alloc, *word, *a7, *stop) {
            return false;
        }
    }
    true
}

fn steps_to_its_break(alloc: Global) -> bool {
    match machine_at(alloc, 0x00500513, &[(0, 9)]) {
        Some(mut machine) => {
            machine.step() == Ok(FIRST)
                && machine.step() == Err(Stop::Break(0x1_007c))
                && is_at_break(&machine)
        }
        None => false,
    }
}

#[test]
fn steps_and_stops(rt: HostRuntime) {
    assert!(rt; steps_to_its_break(rt.alloc()));
    assert!(rt; all_stop(rt.alloc()));
}

// c.li a0,5; addi a0,a0,1; c.ebreak
const BOTH_LENGTHS: &[u8] = b"\x15\x45\x13\x05\x15\0\x02\x90";

/// Whether a step is made from a word of this length, to this pc.
fn steps_over(machine: &mut Machine, word: u32, length: u8, next: u64) -> bool {
    match machine.step() {
        Ok(made) => made.word == word && made.length == length && made.next == next,
        Err(_) => false,
    }
}

fn steps_over_both(machine: &mut Machine) -> bool {
    steps_over(machine, 0x4515, 2, 0x1_007a)
        && steps_over(machine, 0x00150513, 4, 0x1_007e)
        && machine.step() == Err(Stop::Break(0x1_007e))
        && machine.closing().regs[10] == 6
}

fn compressed_machine(alloc: Global) -> Option<Machine> {
    match file_of_code(alloc, 1, BOTH_LENGTHS) {
        Ok(file) => start(alloc, &file, [0; 32]),
        Err(_) => None,
    }
}

fn runs_compressed(alloc: Global) -> bool {
    match compressed_machine(alloc) {
        Some(mut machine) => steps_over_both(&mut machine),
        None => false,
    }
}

#[test]
fn both_lengths(rt: HostRuntime) {
    assert!(rt; runs_compressed(rt.alloc()));
}

/// addi a0,zero,5; ebreak, in a segment that is 2^63 bytes long in memory.
fn half_of_memory(alloc: Global) -> Result<Vec<u8>, AllocError> {
    let mut file = Vec::new(alloc);
    let header = FileHeader {
        entry: 0x1_0078,
        flags: 0,
        segments: 1,
        sections_at: 0,
        sections: 0,
        names_section: 0,
    };
    push_file_header(&mut file, &header)?;
    let segment = SegmentHeader {
        offset: 0,
        address: 0x1_0000,
        stored: 128,
        size: 1 << 63,
        flags: 5,
    };
    push_program_header(&mut file, &segment)?;
    push_words(&mut file, &[0x00500513, EBREAK])?;
    Ok(file)
}

fn half_of_memory_machine(alloc: Global) -> Option<Machine> {
    match half_of_memory(alloc) {
        Ok(file) => start(alloc, &file, [0; 32]),
        Err(_) => None,
    }
}

fn runs_in_half_of_memory(alloc: Global) -> bool {
    match half_of_memory_machine(alloc) {
        Some(mut machine) => sets_a0(&mut machine, 5)
            && machine.step() == Err(Stop::Break(0x1_007c)),
        None => false,
    }
}

/// No memory is taken for what the file doesn't store: so much couldn't be had.
#[test]
fn a_segment_of_half_of_memory(rt: HostRuntime) {
    assert!(rt; runs_in_half_of_memory(rt.alloc()));
}
