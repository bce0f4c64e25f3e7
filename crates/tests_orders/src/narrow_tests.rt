//! Narrow relations of small files.

use crate::calls::{EBREAK, gets};
use elf_write::file_of_words;
use std::alloc::{AllocError, Global};
use std::test::Fail;

// The list, the code, and the text behind the line of the list.
const REGISTERS: [(&str, &[u32], &str); 11] = [
    // addiw a1,a0,1
    (
        "a0,a1",
        &[0x0015059b, EBREAK],
        "proc 0x10078\nat 0x10078\nnone\nat 0x1007c\nrel 1*a0 -1*a1 +1\n",
    ),
    // subw a2,a0,a1
    (
        "a0,a1,a2",
        &[0x40b5063b, EBREAK],
        "proc 0x10078\nat 0x10078\nnone\nat 0x1007c\nrel 1*a0 -1*a1 -1*a2\n",
    ),
    // slliw a1,a0,31
    (
        "a0,a1",
        &[0x01f5159b, EBREAK],
        "proc 0x10078\nat 0x10078\nnone\nat 0x1007c\nrel 2147483648*a0 +1*a1\nrel 2*a1\n",
    ),
    // slli a1,a0,40; slli a2,t0,40
    (
        "a0,a1,a2",
        &[0x02851593, 0x02829613, EBREAK],
        "proc 0x10078\nat 0x10078\nnone\nat 0x1007c\nrel 1*a1\nat 0x10080\nrel 1*a1\n",
    ),
    // mulw a0,zero,a1; addw a1,a0,a0
    (
        "a0,a1",
        &[0x02b0053b, 0x00a505bb, EBREAK],
        "proc 0x10078\nat 0x10078\nnone\nat 0x1007c\nrel 1*a0\nat 0x10080\nrel 1*a0\nrel 1*a1\n",
    ),
    // slli a0,a0,63
    (
        "a0",
        &[0x03f51513, EBREAK],
        "proc 0x10078\nat 0x10078\nnone\nat 0x1007c\nrel 1*a0\n",
    ),
    // slli a0,a0,31
    (
        "a0",
        &[0x01f51513, EBREAK],
        "proc 0x10078\nat 0x10078\nnone\nat 0x1007c\nrel 2*a0\n",
    ),
    // lui a0,0x80000
    (
        "a0",
        &[0x80000537, EBREAK],
        "proc 0x10078\nat 0x10078\nnone\nat 0x1007c\nrel 1*a0 +2147483648\n",
    ),
    // addi a0,zero,5
    (
        "a0",
        &[0x00500513, EBREAK],
        "proc 0x10078\nat 0x10078\nnone\nat 0x1007c\nrel 1*a0 -5\n",
    ),
    // addi a0,zero,5
    (
        "0x10078:-4,a0",
        &[0x00500513, EBREAK],
        "proc 0x10078\nat 0x10078\nnone\nat 0x1007c\nrel 1*a0 -5\n",
    ),
    // loop
    (
        "a0",
        &[0x00000513, 0x00850513, 0xfeb51ee3, EBREAK],
        "proc 0x10078\nat 0x10078\nnone\nat 0x1007c\nrel 536870912*a0\nat 0x10080\nrel 536870912*a0\nat 0x10084\nrel 536870912*a0\n",
    ),
];

// The same with slots of four bytes.
const SLOTS: [(&str, &[u32], &str); 4] = [
    // addi sp,sp,-16; sw a0,8(sp); lw a1,8(sp)
    (
        "a0,a1,0x10078:-8",
        &[0xff010113, 0x00a12423, 0x00812583, EBREAK],
        "proc 0x10078\nat 0x10078\nnone\nat 0x1007c\nnone\nat 0x10080\nrel 1*a0 -1*0x10078:-8\nat 0x10084\nrel 1*a0 -1*0x10078:-8\nrel 1*a1 -1*0x10078:-8\n",
    ),
    // addi sp,sp,-16; sd a0,8(sp); lw a1,8(sp); lw a2,12(sp)
    (
        "a0,a1,a2,0x10078:-8,0x10078:-4",
        &[0xff010113, 0x00a13423, 0x00812583, 0x00c12603, EBREAK],
        "proc 0x10078\nat 0x10078\nnone\nat 0x1007c\nnone\nat 0x10080\nrel 1*a0 -1*0x10078:-8\nat 0x10084\nrel 1*a0 -1*0x10078:-8\nrel 1*a1 -1*0x10078:-8\nat 0x10088\nrel 1*a0 -1*0x10078:-8\nrel 1*a1 -1*0x10078:-8\nrel 1*a2 -1*0x10078:-4\n",
    ),
    // addi sp,sp,-16; sd a0,4(sp); lwu a1,4(sp); ld a2,4(sp)
    (
        "a0,a1,a2,0x10078:-12,0x10078:-8",
        &[0xff010113, 0x00a13223, 0x00416583, 0x00413603, EBREAK],
        "proc 0x10078\nat 0x10078\nnone\nat 0x1007c\nnone\nat 0x10080\nrel 1*a0 -1*0x10078:-12\nat 0x10084\nrel 1*a0 -1*0x10078:-12\nrel 1*a1 -1*0x10078:-12\nat 0x10088\nrel 1*a0 -1*0x10078:-12\nrel 1*a1 -1*0x10078:-12\nrel 1*a2 -1*0x10078:-12\n",
    ),
    // addi sp,sp,-16; sw zero,8(sp); sb a0,11(sp); lw a1,8(sp)
    (
        "a1,0x10078:-8",
        &[0xff010113, 0x00012423, 0x00a105a3, 0x00812583, EBREAK],
        "proc 0x10078\nat 0x10078\nnone\nat 0x1007c\nnone\nat 0x10080\nrel 1*0x10078:-8\nat 0x10084\nnone\nat 0x10088\nrel 1*a1 -1*0x10078:-8\n",
    ),
];

// A call of a procedure that never ends: jal ra,8; ebreak; jal zero,0
const ENDLESS: [u32; 3] = [0x008000ef, EBREAK, 0x0000006f];

const UNREACHED: &str =
    "affine-narrow 1\ntrack sp\nproc 0x10078\nat 0x10078\nnone\nat 0x1007c\nunreached\nproc 0x10080\nat 0x10080\nnone\nend\n";

fn order_of(alloc: Global, list: &str) -> Result<String, AllocError> {
    let mut order = String::from_str(alloc, "narrow f --track ")?;
    order.push_str(list)?;
    Ok(order)
}

fn text_of(alloc: Global, list: &str, points: &str) -> Result<Vec<u8>, AllocError> {
    let mut text = Vec::from_slice(alloc, b"affine-narrow 1\ntrack ")?;
    text.extend_from_slice(list.as_bytes())?;
    text.extend_from_slice(b"\n")?;
    text.extend_from_slice(points.as_bytes())?;
    text.extend_from_slice(b"end\n")?;
    Ok(text)
}

fn all_tell(alloc: Global, cases: &[(&str, &[u32], &str)]) -> Result<bool, Fail> {
    for (list, code, points) in cases.iter() {
        let order = order_of(alloc, list)?;
        let bytes = file_of_words(alloc, code)?;
        let text = text_of(alloc, list, points)?;
        if !gets(alloc, order.as_str(), bytes, 0, &text)? {
            return Ok(false);
        }
    }
    Ok(true)
}

#[test]
fn narrow_relations_of_registers(rt: HostRuntime) -> Result<(), Fail> {
    assert!(rt; all_tell(rt.alloc(), &REGISTERS)?);
    Ok(())
}

#[test]
fn narrow_relations_of_slots(rt: HostRuntime) -> Result<(), Fail> {
    assert!(rt; all_tell(rt.alloc(), &SLOTS)?);
    Ok(())
}

#[test]
fn no_path_comes_behind_an_endless_call(rt: HostRuntime) -> Result<(), Fail> {
    let alloc = rt.alloc();
    assert!(rt;
        gets(
            alloc,
            "narrow f --track sp",
            file_of_words(alloc, &ENDLESS)?,
            0,
            UNREACHED.as_bytes()
        )?
    );
    Ok(())
}

// Lists with slots that aren't a multiple of four from 4 to 2048 bytes below.
const BAD_SLOTS: [&str; 4] = [
    "narrow f --track 0x10078:-6",
    "narrow f --track 0x10078:-2",
    "narrow f --track 0x10078:-0",
    "narrow f --track 0x10078:-2052",
];

fn all_refused(alloc: Global, orders: &[&str]) -> Result<bool, Fail> {
    for order in orders.iter() {
        let bytes = file_of_words(alloc, &[0x00500513, EBREAK])?;
        if !gets(alloc, order, bytes, 1, b"refused BadSlot 1\n")? {
            return Ok(false);
        }
    }
    Ok(true)
}

#[test]
fn slots_of_four_bytes_have_their_places(rt: HostRuntime) -> Result<(), Fail> {
    assert!(rt; all_refused(rt.alloc(), &BAD_SLOTS)?);
    Ok(())
}

const WIDE: &str =
    "affine-report 2\ntrack a0,a1\nproc 0x10078\nat 0x10078\nnone\nat 0x1007c\nnone\nend\n";

// addiw a1,a0,1
#[test]
fn words_have_no_relation_where_their_low_halves_have(rt: HostRuntime) -> Result<(), Fail> {
    let alloc = rt.alloc();
    assert!(rt;
        gets(
            alloc,
            "analyse f --track a0,a1",
            file_of_words(alloc, &[0x0015059b, EBREAK])?,
            0,
            WIDE.as_bytes()
        )?
    );
    Ok(())
}
