//! Lists of registers that are read, and texts that are none.

use start_registers::read_registers;
use std::alloc::{AllocError, Global};

/// Lists, with the numbers and the words of the registers that aren't 0.
const LISTS: [(&str, &[(usize, u64)]); 8] = [
    ("sp=0x20000", &[(2, 0x20000)]),
    ("a0=1,x11=2", &[(10, 1), (11, 2)]),
    ("fp=3,x31=0", &[(8, 3)]),
    ("a0=0,t6=7", &[(31, 7)]),
    ("a0=0x0000000000000010", &[(10, 16)]),
    ("a0=0xFFFFFFFFFFFFFFFF", &[(10, u64::MAX)]),
    ("a0=0xAbC", &[(10, 0xabc)]),
    ("a0=18446744073709551615", &[(10, u64::MAX)]),
];

const OTHER_TEXTS: [&str; 19] = [
    "a0=18446744073709551616",
    "a0=0x10000000000000000",
    "a0=0x00000000000000001",
    "a0=0x",
    "a0=0X1",
    "a0=0x+1",
    "a0=007",
    "a0=+1",
    "a0=-1",
    "a0=",
    "a0=1=2",
    "a0 =1",
    "a0",
    "",
    "a0=1,",
    "a0=1,,a1=2",
    "a0=1,x10=2",
    "s0=3,fp=4",
    "zero=1",
];

/// The registers of these numbers with these words, and 0 elsewhere.
fn with(set: &[(usize, u64)]) -> [u64; 32] {
    let mut regs = [0; 32];
    for (register, word) in set {
        if *register < 32 {
            regs[*register] = *word;
        }
    }
    regs
}

fn lists_are_read(alloc: Global) -> Result<bool, AllocError> {
    for (text, set) in LISTS.iter() {
        if read_registers(alloc, text)? != Some(with(set)) {
            return Ok(false);
        }
    }
    Ok(true)
}

fn others_are_none(alloc: Global) -> Result<bool, AllocError> {
    for text in OTHER_TEXTS.iter() {
        if read_registers(alloc, text)?.is_some() {
            return Ok(false);
        }
    }
    Ok(true)
}

#[test]
fn lists(rt: HostRuntime) {
    assert!(rt; lists_are_read(rt.alloc()) == Ok(true));
    assert!(rt; others_are_none(rt.alloc()) == Ok(true));
}
