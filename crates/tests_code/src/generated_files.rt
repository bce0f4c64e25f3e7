//! The sizes of files, their first words, and what is refused.

use gen_elf::{GenRefusal, generate};
use std::alloc::Global;

// The numbers of procedures, the sizes of the files, and the words of the last calls.
const FILES: [(u32, usize, u32); 3] = [
    (1, 164, 0xff1ff0ef), // jal ra,-16
    (40, 1412, 0xb11ff0ef), // jal ra,-1264
    (100, 3332, 0xb90ff0ef), // jal ra,-3184
];

// The words from the entry on, up to the call of the first procedure.
const FIRST: [u32; 7] = [
    0x00000513, // addi a0,zero,0
    0x008000ef, // jal ra,8
    0x00100073, // ebreak
    0xff010113, // addi sp,sp,-16
    0x00113423, // sd ra,8(sp)
    0x00150513, // addi a0,a0,1
    0x00050463, // beq a0,zero,8
];

/// Whether these words stand in a file from a place on.
fn has_words(file: &[u8], start: usize, words: &[u32]) -> bool {
    let mut at = start;
    for word in words {
        let end = at.saturating_add(4);
        if file.get(at..end) != Some(word.to_le_bytes().as_slice()) {
            return false;
        }
        at = end;
    }
    true
}

fn is_file(file: &[u8], size: usize, last_call: u32) -> bool {
    file.len() == size
        && has_words(file, size.saturating_sub(16), &[last_call])
        && has_words(file, 120, &FIRST)
}

fn makes_file(alloc: Global, n: u32, size: usize, last_call: u32) -> bool {
    match generate(alloc, n) {
        Ok(file) => is_file(&file, size, last_call),
        Err(_) => false,
    }
}

fn all_are_made(alloc: Global) -> bool {
    for (n, size, last_call) in FILES.iter() {
        if !makes_file(alloc, *n, *size, *last_call) {
            return false;
        }
    }
    true
}

#[test]
fn files(rt: HostRuntime) {
    assert!(rt; all_are_made(rt.alloc()));
}

fn is_out_of_range(alloc: Global, n: u32) -> bool {
    match generate(alloc, n) {
        Ok(_) => false,
        Err(refusal) => refusal == GenRefusal::Range(n),
    }
}

#[test]
fn numbers_out_of_range(rt: HostRuntime) {
    assert!(rt; is_out_of_range(rt.alloc(), 0));
    assert!(rt; is_out_of_range(rt.alloc(), 101));
    assert!(rt; is_out_of_range(rt.alloc(), 1_000_000_000));
}
