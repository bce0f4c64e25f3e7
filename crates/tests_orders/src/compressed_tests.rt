//! Orders over files with compressed instructions.

use crate::calls::gets;
use elf_write::{push_number, push_small_headers};
use std::alloc::{AllocError, Global};
use std::test::Fail;

// A small file whose flags say that it has compressed instructions, with these halves as its code.
fn compressed_file(alloc: Global, halves: &[u16]) -> Result<Vec<u8>, AllocError> {
    let size = (halves.len() as u64).wrapping_mul(2).wrapping_add(120);
    let mut bytes = Vec::new(alloc);
    push_small_headers(&mut bytes, 1, size)?;
    for half in halves.iter() {
        push_number(&mut bytes, 2, u64::from(*half))?;
    }
    Ok(bytes)
}

// c.li a0,5; c.ebreak
const SHORT: [u16; 2] = [0x4515, 0x9002];

// addi a0,zero,5; ebreak
const LONG: [u16; 4] = [0x0513, 0x0050, 0x0073, 0x0010];

// jal ra,6; c.ebreak; c.addi sp,-16; c.sdsp ra,8; c.ldsp ra,8; c.addi sp,16; c.jr ra
const SAVING: [u16; 8] = [
    0x00ef, 0x0060, 0x9002, 0x1141, 0xe406, 0x60a2, 0x0141, 0x8082,
];

const SHORT_REPORT: &str =
    "affine-report 2\ntrack a0\nproc 0x10078\nat 0x10078\nnone\nat 0x1007a\nrel 1*a0 -5\nend\n";

const SHORT_LIST: &str =
    "affine-list 1\nproc 0x10078\n0x10078 4515 addi a0,zero,5\n0x1007a 9002 ebreak\nend\n";

const LONG_REPORT: &str =
    "affine-report 2\ntrack a0\nproc 0x10078\nat 0x10078\nnone\nat 0x1007c\nrel 1*a0 -5\nend\n";

const LONG_LIST: &str =
    "affine-list 1\nproc 0x10078\n0x10078 00500513 addi a0,zero,5\n0x1007c 00100073 ebreak\nend\n";

const SAVING_CERTS: &str =
    "affine-cert 1\ntrack sp,ra,0x1007e:-8\nproc 0x10078\nsp never\nra never\nproc 0x1007e\nsp granted\nra granted\nend\n";

const SAVING_REPORT: &str =
    "affine-report 2\ntrack sp,ra,0x1007e:-8\nproc 0x10078\ncert sp never\ncert ra never\nat 0x10078\nnone\nat 0x1007c\nrel 1*ra -65660\nproc 0x1007e\ncert sp granted\ncert ra granted\nat 0x1007e\nrel 1*ra -65660\nat 0x10080\nrel 1*ra -65660\nat 0x10082\nrel 1*ra -65660\nrel 1*0x1007e:-8 -65660\nat 0x10084\nrel 1*ra -65660\nrel 1*0x1007e:-8 -65660\nat 0x10086\nrel 1*ra -65660\nrel 1*0x1007e:-8 -65660\nend\n";

// The order, the halves of the code, the status and the text.
const CASES: [(&str, &[u16], u8, &str); 11] = [
    ("analyse f --track a0", &SHORT, 0, SHORT_REPORT),
    ("list f", &SHORT, 0, SHORT_LIST),
    ("analyse f --track a0", &LONG, 0, LONG_REPORT),
    ("list f", &LONG, 0, LONG_LIST),
    ("cert f --track sp,ra,0x1007e:-8", &SAVING, 0, SAVING_CERTS),
    (
        "analyse f --track sp,ra,0x1007e:-8",
        &SAVING,
        0,
        SAVING_REPORT,
    ),
    ("list f", &[0], 1, "refused NoInstruction 0000 at 0x10078\n"),
    (
        "list f",
        &[0xffff, 0xffff],
        1,
        "refused NoInstruction ffffffff at 0x10078\n",
    ),
    (
        "cert f --track a0",
        &[0x8182],
        1,
        "refused IndirectJump gp at 0x10078\n",
    ),
    // addi a0,a4,9; c.nop; c.jalr ra; c.ebreak: the bytes at 0x1007a look like auipc ra,0x10
    (
        "analyse f --track a0",
        &[0x0513, 0x0097, 0x0001, 0x9082, 0x9002],
        1,
        "refused IntoPair at 0x1007e\n",
    ),
    // c.nop, and half of an addi
    (
        "list f",
        &[0x0001, 0x0513],
        1,
        "refused OutsideCode at 0x1007a\n",
    ),
];

fn all_get(alloc: Global, cases: &[(&str, &[u16], u8, &str)]) -> Result<bool, Fail> {
    for (order, halves, status, text) in cases.iter() {
        let bytes = compressed_file(alloc, halves)?;
        if !gets(alloc, order, bytes, *status, text.as_bytes())? {
            return Ok(false);
        }
    }
    Ok(true)
}

#[test]
fn orders_over_compressed_code(rt: HostRuntime) -> Result<(), Fail> {
    assert!(rt; all_get(rt.alloc(), &CASES)?);
    Ok(())
}
